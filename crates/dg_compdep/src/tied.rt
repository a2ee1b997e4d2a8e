//! The component classes with the ties between instances.

ghost use Rattle.std.specs.Prelude.{◌≡◌, IfOk};
ghost use Rattle.dg_decl.specs.Bounds.{IsBounded};
ghost use Rattle.dg_decl.specs.Components.{component_classes};
ghost use Rattle.dg_decl.specs.Document as document;
ghost use Rattle.dg_decl.specs.Stages.Links as stage;
ghost use Rattle.dg_compdep.specs.Ties as spec;

use crate::classes::Classes;
use crate::tie::{Tie, tie_of};
use crate::ties::{Ties, ties_of};
use dg_decl::{CompTree, Doc};
use dg_names::{Names, Statement};
use dg_types::NoMemory;
use std::alloc::Global;
use std::marker::Model;

/// The component classes of a document, and which line first ties which instances. Contracts see
/// the document.
#[derive(Drop)]
pub(crate) struct Tied<'a> {
    classes: Classes<'a>,
    ties: Ties,
}

impl<'a> Model for Tied<'a> {
    ghost use Rattle.std.specs.Coded.{codes};
    ghost use Rattle.dg_decl.specs.contracts.document.Doc as code;
    ghost use Rattle.dg_decl.specs.declared.document.Doc.{Doc};
    ghost use Rattle.dg_compdep.specs.Ties.{HasTies};

    ghost Value = { Doc };

    ghost coded = { Prim.hlevel (codes, code.the_row.coded) };

    ghost view = { λ t. t.classes };

    ghost invariant = { λ t. HasTies t.classes t.ties };
}

impl<'a> Tied<'a> {
    /// The classes and the ties of a document.
    pub(crate) fn of(alloc: Global, d: &'a Doc, t: &'a CompTree) -> Result<Tied<'a>, NoMemory>
        requires bounded { IsBounded d.now }
        requires classes { t.now.classes ≡ component_classes d.now }
        ensures exact { IfOk result (λ tied. tied ≡ d.now) }
    {
        let classes = Classes::of(alloc, d, t)?;
        let ties = ties_of(alloc, &classes)?;
        Ok(Tied { classes, ties })
    }

    pub(crate) fn classes(&self) -> &Classes<'a>
        ensures exact { result.now ≡ self.now }
    {
        &self.classes
    }

    pub(crate) fn names(&self) -> &Names<'a>
        ensures exact { result.now ≡ self.now }
    {
        self.classes.names()
    }

    /// The index of the first line that ties an instance to an instance of a class.
    pub(crate) fn first_line(&self, from: &[u8], class: u32) -> Result<Option<u32>, NoMemory>
        ensures exact { IfOk result (λ index. index
            ≡ spec.first_index self.now from.now class (document.statements self.now)) }
    {
        self.ties.index_of(from, class)
    }

    /// Whether a line ties an instance to an instance of a class.
    pub(crate) fn is_tied(&self, from: &[u8], class: u32) -> Result<bool, NoMemory>
        ensures exact { IfOk result (λ tied. tied ≡ stage.is_tied self.now from.now class) }
    {
        match self.first_line(from, class)? {
            Some(_) => Ok(true),
            None => Ok(false),
        }
    }

    /// Whether a line before a statement has this tie.
    fn is_tied_before(&self, s: &Statement<'_>, tie: &Tie<'_>) -> Result<bool, NoMemory>
        ensures exact { IfOk result (λ tied. tied ≡ stage.is_tied_before self.now s.now tie.now) }
    {
        match self.first_line(tie.from.as_slice(), tie.class)? {
            Some(index) => Ok(index < s.index),
            None => Ok(false),
        }
    }

    /// Whether a `link` line ties what no earlier line ties.
    pub(crate) fn ties_anew(&self, s: &Statement<'_>) -> Result<bool, NoMemory>
        ensures exact { IfOk result (λ anew. anew ≡ stage.ties_anew self.now s.now) }
    {
        match tie_of(&self.classes, s) {
            Some(tie) => {
                let before = self.is_tied_before(s, &tie)?;
                Ok(!before)
            }
            None => Ok(false),
        }
    }
}
