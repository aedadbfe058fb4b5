//! The readers of trees whose parts have so much room, over a function value that reads parts.

ghost use Rattle.std.specs.Prelude.{◌≡◌, ◌≤◌};
ghost use Rattle.ui_parse.specs.View.{Reads};
ghost use Rattle.ui_syntax.specs.Types as spec;
ghost use Rattle.ui_syntax.specs.Exprs as exprs;
ghost use Rattle.ui_syntax.specs.Read.{readers};
ghost use Rattle.ui_ptype.specs.Nests.{Nests};
ghost use Rattle.ui_ptype.specs.Parts.{type_in};
ghost use Rattle.ui_ptype.specs.Seen.{see, see_type, see_maybe, see_all};
ghost use Rattle.ui_syntax.specs.declared.site.TypeSite.TheVariants as at;

use crate::nested::{Ask, Got};
use crate::sub::{Sub, Subs, TypeSub};
use std::alloc::Global;
use ui_parse::{Cursor, ParseError};
use ui_syntax::{Site, TypeSite};

/// How deep the parts of a tree may be, one level less than the tree, and what reads them.
#[derive(Clone, Copy)]
pub struct Grammar<F>
where
    F: Fn(Global, &mut Cursor<'_>, u32, Ask) -> Result<Got, ParseError>,
{
    pub alloc: Global,
    pub room: u32,
    pub part: F,
}

impl<F> Grammar<F>
where
    F: Fn(Global, &mut Cursor<'_>, u32, Ask) -> Result<Got, ParseError>,
{
    #[tactic(auto, using(crate::proofs::AskedReads::is_level, crate::proofs::AskedReads::level_read, crate::proofs::AskedReads::level_fault))]
    fn level_within(
        &self,
        words: &mut Cursor<'_>,
        budget: u32,
        site: Site,
        least: u8,
    ) -> Result<Sub, ParseError>
        requires nests { Nests self.now.room (F.pre self.now.part) (F.post self.now.part) }
        requires within { budget ≤ self.now.room }
        ensures { Reads see ((readers budget).level site least words.old) result words.new }
    {
        match (self.part)(self.alloc, words, budget, Ask::Level(site, least)) {
            Ok(got) => Ok(got.into_level()),
            Err(fault) => Err(fault),
        }
    }

    #[tactic(auto, using(crate::proofs::AskedReads::is_type, crate::proofs::AskedReads::type_read, crate::proofs::AskedReads::type_fault))]
    fn type_within(
        &self,
        words: &mut Cursor<'_>,
        budget: u32,
        site: TypeSite,
    ) -> Result<Option<TypeSub>, ParseError>
        requires nests { Nests self.now.room (F.pre self.now.part) (F.post self.now.part) }
        requires within { budget ≤ self.now.room }
        ensures { Reads see_maybe ((readers budget).maybe_type site words.old) result words.new }
    {
        match (self.part)(self.alloc, words, budget, Ask::MaybeType(site)) {
            Ok(got) => Ok(got.into_maybe_type()),
            Err(fault) => Err(fault),
        }
    }

    /// An expression of one level less, whose operators bind at least so tightly.
    pub fn level_at(&self, words: &mut Cursor<'_>, site: Site, least: u8) -> Result<Sub, ParseError>
        requires { Nests self.now.room (F.pre self.now.part) (F.post self.now.part) }
        ensures { Reads see ((readers self.now.room).level site least words.old) result words.new }
    {
        self.level_within(words, self.room, site, least)
    }

    // One level less than the parts have: nothing where they have none.
    #[tactic(auto, using(crate::proofs::CodeReaders::reads_lower))]
    pub(crate) fn lower_level(
        &self,
        words: &mut Cursor<'_>,
        site: Site,
        least: u8,
    ) -> Result<Sub, ParseError>
        requires { Nests self.now.room (F.pre self.now.part) (F.post self.now.part) }
        ensures { Reads see ((readers self.now.room).lower_level site least words.old) result
            words.new }
    {
        self.level_within(words, self.room.saturating_sub(1), site, least)
    }

    /// A type of one level less, where one begins.
    pub fn type_at(
        &self,
        words: &mut Cursor<'_>,
        site: TypeSite,
    ) -> Result<Option<TypeSub>, ParseError>
        requires { Nests self.now.room (F.pre self.now.part) (F.post self.now.part) }
        ensures { Reads see_maybe ((readers self.now.room).maybe_type site words.old) result
            words.new }
    {
        self.type_within(words, self.room, site)
    }

    #[tactic(auto, using(crate::proofs::CodeReaders::reads_lower_type))]
    pub(crate) fn maybe_lower_type(
        &self,
        words: &mut Cursor<'_>,
    ) -> Result<Option<TypeSub>, ParseError>
        requires { Nests self.now.room (F.pre self.now.part) (F.post self.now.part) }
        ensures { Reads see_maybe ((readers self.now.room).lower_maybe_type at.Plain words.old)
            result words.new }
    {
        self.type_within(words, self.room.saturating_sub(1), TypeSite::Plain)
    }

    /// A type of one level less.
    pub fn a_type(&self, words: &mut Cursor<'_>) -> Result<TypeSub, ParseError>
        requires { Nests self.now.room (F.pre self.now.part) (F.post self.now.part) }
        ensures { Reads see_type (spec.a_type self.now.room (readers self.now.room) words.old)
            result words.new }
    {
        match self.type_at(words, TypeSite::Plain) {
            Ok(Some(of)) => Ok(of),
            Ok(None) => Err(ParseError::Fault),
            Err(fault) => Err(fault),
        }
    }

    pub(crate) fn a_lower_type(&self, words: &mut Cursor<'_>) -> Result<TypeSub, ParseError>
        requires { Nests self.now.room (F.pre self.now.part) (F.post self.now.part) }
        ensures { Reads see_type (spec.a_lower_type self.now.room (readers self.now.room) words.old)
            result words.new }
    {
        match self.maybe_lower_type(words) {
            Ok(Some(of)) => Ok(of),
            Ok(None) => Err(ParseError::Fault),
            Err(fault) => Err(fault),
        }
    }

    pub(crate) fn type_in(&self, words: &mut Cursor<'_>, lower: bool) -> Result<TypeSub, ParseError>
        requires { Nests self.now.room (F.pre self.now.part) (F.post self.now.part) }
        ensures { Reads see_type (type_in self.now.room (readers self.now.room) lower words.old)
            result words.new }
    {
        if lower {
            self.a_lower_type(words)
        } else {
            self.a_type(words)
        }
    }

    pub(crate) fn an_element(&self, words: &mut Cursor<'_>) -> Result<TypeSub, ParseError>
        requires { Nests self.now.room (F.pre self.now.part) (F.post self.now.part) }
        ensures { Reads see_type (spec.an_element self.now.room (readers self.now.room) words.old)
            result words.new }
    {
        match self.type_at(words, TypeSite::Element) {
            Ok(Some(of)) => Ok(of),
            Ok(None) => Err(ParseError::Fault),
            Err(fault) => Err(fault),
        }
    }

    /// An expression of one level less.
    pub fn an_expr(&self, words: &mut Cursor<'_>) -> Result<Sub, ParseError>
        requires { Nests self.now.room (F.pre self.now.part) (F.post self.now.part) }
        ensures { Reads see (exprs.an_expr self.now.room (readers self.now.room) words.old) result
            words.new }
    {
        self.level_at(words, Site::Plain, 1)
    }

    /// The elements of a literal of one level less, behind its brace.
    #[tactic(auto, using(crate::proofs::AskedReads::are_braces, crate::proofs::AskedReads::braces_read, crate::proofs::AskedReads::braces_fault))]
    pub fn nested_braces(&self, words: &mut Cursor<'_>) -> Result<Subs, ParseError>
        requires { Nests self.now.room (F.pre self.now.part) (F.post self.now.part) }
        ensures { Reads see_all ((readers self.now.room).braces words.old) result words.new }
    {
        match (self.part)(self.alloc, words, self.room, Ask::Braces) {
            Ok(got) => Ok(got.into_braces()),
            Err(fault) => Err(fault),
        }
    }
}
