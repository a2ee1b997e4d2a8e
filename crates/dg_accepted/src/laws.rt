ghost use Rattle.dg_accepted.specs.Accepted.{AcceptedDocumentsAreSound};

/// In a document that breaks no rule each request of a node of its graph finds one thing, which is a
/// node of the graph too, so no binding is missing; no node needs itself; and no node that is
/// evaluated without waiting asks for a production.
pub fn accepted_documents_are_sound()
    ensures exact { AcceptedDocumentsAreSound }
{}
