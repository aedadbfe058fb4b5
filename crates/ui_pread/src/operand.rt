//! Operands. Go specification, "Operands", "Composite literals", "Conversions".

ghost use Rattle.std.specs.Prelude.{◌≡◌, IfOk, List, max, suc};
ghost use Rattle.ui_syntax.specs.Exprs.{of_tree};
ghost use Rattle.ui_tree.specs.Tree.{composite};
ghost use Rattle.ui_tree.specs.View.{trees};
ghost use Rattle.std.specs.Option.{option_map};
ghost use Rattle.ui_grammar.specs.Word.{Word};
ghost use Rattle.ui_ptype.specs.Seen.{see, see_type, see_all};
ghost use Rattle.ui_syntax.specs.Cover.{only_type};
ghost use Rattle.ui_parse.specs.View.{Reads};
ghost use Rattle.ui_ptype.specs.Nests.{Nests};
ghost use Rattle.ui_syntax.specs.Exprs as spec;
ghost use Rattle.ui_syntax.specs.Read.{readers};

use crate::exprs::Exprs;
use crate::sites::{inner_site, takes_types};
use std::alloc::Global;
use ui_base::{NoMemory, Spot};
use ui_parse::{Cursor, ParseError};
use ui_ptype::{
    Ask, Got, Sub, Subs, TypeSub, deeper, expr_over, expr_sub, has_literals, into_type_alone,
    is_counted, is_type_alone, type_over,
};
use ui_scan::TokenKind;
use ui_syntax::{Site, TypeSite};
use ui_tree::{ExprTree, TypeExpr};

// The literal of the type with these elements.
fn literal_with(alloc: Global, of: TypeSub, elems: Subs) -> Result<Sub, NoMemory>
    ensures { IfOk result (λ s. see s ≡ of_tree
        (composite of.spot (see_type of).tree (trees (see_all elems).items)) of.spot
        (suc (max of.depth (suc elems.depth)))) }
{
    let spot = of.spot;
    let depth = of.depth.max(deeper(elems.depth)?);
    expr_over(
        alloc,
        ExprTree::composite(spot, of.tree, elems.items),
        spot,
        depth,
    )
}

impl<F> Exprs<F>
where
    F: Fn(Global, &mut Cursor<'_>, u32, Ask) -> Result<Got, ParseError>,
{
    // The type alone, where the site takes it; `[...]T` stands before braces only.
    fn alone(&self, site: Site, of: TypeSub) -> Result<Sub, ParseError>
        ensures { (ws : List Word) → Reads see
            (spec.alone self.now.types.room (readers self.now.types.room) site (see_type of) ws)
            result ws }
    {
        if !takes_types(site) || is_counted(of.tree.get()) {
            return Err(ParseError::Fault);
        }
        let spot = of.spot;
        let depth = of.depth;
        match expr_sub(self.types.alloc, ExprTree::type_arg(of.tree), spot, depth) {
            Ok(of) => Ok(of),
            Err(_) => Err(ParseError::NoMemory),
        }
    }

    #[tactic(auto, unfolding(ui_parse::specs::Reader::take_by, ui_parse::specs::Reader::eat))]
    fn convert_or(&self, words: &mut Cursor<'_>, site: Site, of: TypeSub) -> Result<Sub, ParseError>
        requires { Nests self.now.types.room (F.pre self.now.types.part)
            (F.post self.now.types.part) }
        ensures { Reads see (spec.convert_or self.now.types.room (readers self.now.types.room) site
            (see_type of) words.old) result words.new }
    {
        if is_counted(of.tree.get()) {
            return Err(ParseError::Fault);
        }
        let Some(_) = words.take(TokenKind::LParen) else {
            return self.alone(site, of);
        };
        let operand = match self.types.an_expr(words) {
            Ok(operand) => operand,
            Err(fault) => return Err(fault),
        };
        words.take(TokenKind::Comma);
        if let Err(fault) = words.expect(TokenKind::RParen) {
            return Err(fault);
        }
        let depth = of.depth.max(operand.depth);
        let spot = of.spot;
        let tree = ExprTree::convert(spot, of.tree, operand.tree);
        match expr_over(self.types.alloc, tree, spot, depth) {
            Ok(of) => Ok(of),
            Err(_) => Err(ParseError::NoMemory),
        }
    }

    // Behind "{".
    pub(crate) fn literal_of(&self, words: &mut Cursor<'_>, of: TypeSub) -> Result<Sub, ParseError>
        requires { Nests self.now.types.room (F.pre self.now.types.part)
            (F.post self.now.types.part) }
        ensures { Reads see (spec.literal_of self.now.types.room (readers self.now.types.room)
            (see_type of) words.old) result words.new }
    {
        let elems = match self.types.nested_braces(words) {
            Ok(elems) => elems,
            Err(fault) => return Err(fault),
        };
        match literal_with(self.types.alloc, of, elems) {
            Ok(of) => Ok(of),
            Err(_) => Err(ParseError::NoMemory),
        }
    }

    // A literal or a conversion of a type that is no expression, or the type itself.
    #[tactic(auto, unfolding(ui_syntax::specs::Exprs::behind_type, ui_parse::specs::Reader::take_by))]
    fn behind_type(
        &self,
        words: &mut Cursor<'_>,
        site: Site,
        of: TypeSub,
    ) -> Result<Sub, ParseError>
        requires { Nests self.now.types.room (F.pre self.now.types.part)
            (F.post self.now.types.part) }
        ensures { Reads see (spec.behind_type self.now.types.room (readers self.now.types.room) site
            (see_type of) words.old) result words.new }
    {
        if of.depth > self.types.room {
            return self.alone(site, of);
        }
        if !has_literals(of.tree.get()) {
            return self.convert_or(words, site, of);
        }
        match words.take(TokenKind::LBrace) {
            Some(_) => self.literal_of(words, of),
            None => self.convert_or(words, site, of),
        }
    }

    fn maybe_behind(
        &self,
        words: &mut Cursor<'_>,
        site: Site,
        of: Option<TypeSub>,
    ) -> Result<Sub, ParseError>
        requires { Nests self.now.types.room (F.pre self.now.types.part)
            (F.post self.now.types.part) }
        ensures { Reads see (spec.maybe_behind self.now.types.room
            (readers self.now.types.room) site (option_map see_type of) words.old) result
            words.new }
    {
        match of {
            Some(of) => self.behind_type(words, site, of),
            None => Err(ParseError::Fault),
        }
    }

    // A type for itself has as much room as an expression, else one level less.
    fn type_operand(&self, words: &mut Cursor<'_>, site: Site) -> Result<Sub, ParseError>
        requires { Nests self.now.types.room (F.pre self.now.types.part)
            (F.post self.now.types.part) }
        ensures { Reads see (spec.type_operand self.now.types.room
            (readers self.now.types.room) site words.old) result words.new }
    {
        match site {
            Site::Argument => {
                let of = match self.types.own_type(words, TypeSite::Argument) {
                    Ok(of) => of,
                    Err(fault) => return Err(fault),
                };
                self.maybe_behind(words, site, of)
            }
            Site::Header | Site::Plain | Site::Wrapped => {
                let of = match self.types.type_at(words, TypeSite::Operand) {
                    Ok(of) => of,
                    Err(fault) => return Err(fault),
                };
                self.maybe_behind(words, site, of)
            }
        }
    }

    // An expression in parentheses, or a type in parentheses and what follows it.
    fn enclose(
        &self,
        words: &mut Cursor<'_>,
        site: Site,
        spot: Spot,
        inner: Sub,
    ) -> Result<Sub, ParseError>
        requires { Nests self.now.types.room (F.pre self.now.types.part)
            (F.post self.now.types.part) }
        ensures { Reads see (spec.enclose self.now.types.room
            (readers self.now.types.room) site spot (see inner)
            (only_type (see inner).tree) words.old) result words.new }
    {
        let depth = inner.depth;
        if !is_type_alone(inner.tree.get()) {
            return match expr_over(
                self.types.alloc,
                ExprTree::paren(spot, inner.tree),
                spot,
                depth,
            ) {
                Ok(of) => Ok(of),
                Err(_) => Err(ParseError::NoMemory),
            };
        }
        let Some(of) = into_type_alone(inner.tree) else {
            return Err(ParseError::Fault);
        };
        match type_over(
            self.types.alloc,
            TypeExpr::parenthesized(spot, of),
            spot,
            depth,
        ) {
            Ok(of) => self.behind_type(words, site, of),
            Err(_) => Err(ParseError::NoMemory),
        }
    }

    // Behind "(".
    #[tactic(auto, unfolding(ui_syntax::specs::Exprs::parenthesized_operand))]
    fn parenthesized_operand(
        &self,
        words: &mut Cursor<'_>,
        site: Site,
        spot: Spot,
    ) -> Result<Sub, ParseError>
        requires { Nests self.now.types.room (F.pre self.now.types.part)
            (F.post self.now.types.part) }
        ensures { Reads see (spec.parenthesized_operand self.now.types.room
            (readers self.now.types.room) site spot words.old) result words.new }
    {
        let inner = match self.types.level_at(words, inner_site(site), 1) {
            Ok(inner) => inner,
            Err(fault) => return Err(fault),
        };
        if let Err(fault) = words.expect(TokenKind::RParen) {
            return Err(fault);
        }
        self.enclose(words, site, spot, inner)
    }

    #[tactic(auto, using(crate::proofs::Operands::operand_literal, crate::proofs::Operands::operand_name, crate::proofs::Operands::operand_rest), unfolding(ui_parse::specs::Reader::take_by))]
    pub(crate) fn operand(&self, words: &mut Cursor<'_>, site: Site) -> Result<Sub, ParseError>
        requires { Nests self.now.types.room (F.pre self.now.types.part)
            (F.post self.now.types.part) }
        ensures { Reads see (spec.operand self.now.types.room
            (readers self.now.types.room) site words.old) result words.new }
    {
        if let Some(literal) = words.take_literal(self.types.alloc)? {
            let spot = literal.spot;
            let tree = ExprTree::literal(spot, literal.kind, literal.value);
            return Ok(expr_sub(self.types.alloc, tree, spot, 1)?);
        }
        if let Some(name) = words.take_name(self.types.alloc)? {
            let spot = name.spot;
            return Ok(expr_sub(self.types.alloc, ExprTree::name(name), spot, 1)?);
        }
        if self.types.room == 0 {
            return self.type_operand(words, site);
        }
        match words.take(TokenKind::LParen) {
            Some(spot) => self.parenthesized_operand(words, site, spot),
            None => self.type_operand(words, site),
        }
    }
}
