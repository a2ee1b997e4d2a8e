//! What users of Dagger are promised of scoped bindings, of producers and of objects.

ghost use Rattle.dg_promises.specs.Uses.{
  IdentitiesDiffer,
  OneContentForEachProducer,
  OneValueForEachInstance,
};

/// In an accepted document a scoped binding or a producer has one value in each instance. A
/// request, a `get` of a Provider and a `get` of a Lazy all come to it, wherever they stand.
pub fn one_value_for_each_instance()
    ensures exact { OneValueForEachInstance }
{}

/// In an accepted document what becomes of a producer in an instance is one result, which a request
/// for its outcome and an `await` see alike.
pub fn one_content_for_each_producer()
    ensures exact { OneContentForEachProducer }
{}

/// Objects of a scoped `@Inject` class are told apart by class and instance, and those of a class
/// without a scope by the place at which they are made.
pub fn identities_differ()
    ensures exact { IdentitiesDiffer }
{}
