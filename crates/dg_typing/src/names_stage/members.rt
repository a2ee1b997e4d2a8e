//! The names of members, in a table.

ghost use Rattle.std.specs.Prelude.{◌≡◌, ◌++◌, ◌∷◌, ℕ, List, Option, [], IfOk, OnOk, false};
ghost use Rattle.std.specs.Option.{option_map_or};
ghost use Rattle.dg_decl.specs.Document as document;
ghost use Rattle.dg_decl.specs.Names.{member_name};
ghost use Rattle.dg_typing.specs.NamesMembers as spec;

use dg_names::Statement;
use dg_types::{Name, NoMemory};
use indexmap::IndexSet;
use std::alloc::Global;
use std::marker::Model;

/// The name of a member, with the index of the header in whose block the member stands.
#[derive(Drop, PartialEq, Eq, Hash)]
struct Member {
    block: Option<u32>,
    name: Name,
}

/// The names of members, each with its block. Contracts see the list of them. To note one takes the
/// time of copying and hashing a name, as a rule.
#[derive(Drop)]
pub struct MemberNames {
    alloc: Global,
    members: IndexSet<Member>,
}

impl Model for MemberNames {
    ghost use Rattle.std.specs.Prelude.{List, Option, ℕ, map};

    ghost Value = { List (Option ℕ × List ℕ) };

    ghost view = { λ t. map (λ m. (m.block, m.name)) t.members.keys };
}

impl MemberNames {
    /// No names.
    pub fn new(alloc: Global) -> MemberNames
        ensures exact { result ≡ [] }
    {
        MemberNames {
            alloc,
            members: IndexSet::new(alloc),
        }
    }

    /// Notes a name of a block, and tells whether the block had it before.
    fn note_name(&mut self, block: Option<u32>, name: &[u8]) -> Result<bool, NoMemory>
        ensures exact { IfOk result (λ had. had ≡ spec.has_noted self.old block name.now) }
        ensures noted { OnOk result (spec.NotesOne (block, name.now) self.old self.new) }
    {
        let name = Name::from_slice(self.alloc, name)?;
        let (_, is_new) = self.members.insert_full(Member { block, name })?;
        Ok(!is_new)
    }

    /// Notes the name of a statement that is a member, and tells whether the block had it before.
    pub fn note(&mut self, s: &Statement<'_>) -> Result<bool, NoMemory>
        ensures exact { IfOk result (λ had. had
            ≡ option_map_or (spec.has_noted self.old s.now.block) (member_name s.now.item) false) }
        ensures noted { OnOk result ((ss : List document.Statement)
            → spec.AreMembers ss self.old → spec.AreMembers (ss ++ s.now ∷ []) self.new) }
    {
        match s.item.member_name() {
            Some(name) => {
                let had = self.note_name(s.block, name.as_slice())?;
                Ok(had)
            }
            None => Ok(false),
        }
    }
}
