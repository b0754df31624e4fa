//! The parser of expressions, level by level. The parser of an expression in brackets is a parameter, so that each level is
//! proved by itself.
ghost use Rattle.cedar_parser_expressions.specs.Reading as spec;
ghost use Rattle.cedar_parser_tokens.specs.Contract.{Reads, ReadsItems};
ghost use Rattle.cedar_parser_expressions.specs.Private.Boxed.{ReadsBoxed, ReadsField};
ghost use Rattle.cedar_parser_expressions.specs.Private.Nests.{Nests};
ghost use Rattle.cedar_parser_expressions.specs.Private.Operands.{Operands};

use crate::chain::finish_chain;
use crate::chain_level::ChainLevel;
use crate::constructors::{
    BoxedField, call, group, if_else, is, is_in, minus, not, push_field, push_item, push_operand,
    record, relation, set,
};
use crate::leaves::{
    begins_access, begins_path, parse_entity, parse_has, parse_like, parse_plain, parse_variable,
    span_from,
};
use crate::lookup::{chain_sign, relation_sign};
use cedar_parser_tokens::{Content, Cursor, ParseFault, Word, parse_key, parse_path, parse_string};
use cedar_parser_tree::{Field, Link, Series, Written};
use cedar_text::TokenKind;
use cedar_value::{Name, Text};
use std::alloc::Global;

/// A parser of expressions.
#[derive(Clone, Copy)]
pub struct ExpressionParser<F> {
    alloc: Global,
    /// How many more brackets may open.
    depth: u8,
    inner: F,
}

impl<F: Fn(Global, &mut Cursor<'_>, u8) -> Result<Box<Written>, ParseFault>> ExpressionParser<F> {
    // Parses an expression in brackets.
    fn parse_nested_expression(&self, tokens: &mut Cursor<'_>) -> Result<Box<Written>, ParseFault>
        requires { Nests self.now.depth (F.pre self.now.inner) (F.post self.now.inner) }
        ensures { ReadsBoxed (spec.nested self.now.depth tokens.old) result tokens.new }
    {
        (self.inner)(self.alloc, tokens, self.depth)
    }

    // Takes a token that opens a bracket or an `if`, and refuses it where no more may be open.
    #[tactic(auto, unfolding(crate::specs::Reading::open_one))]
    fn enter_nesting(&self, tokens: &mut Cursor<'_>) -> Result<(), ParseFault>
        ensures { Reads (spec.open_one self.now.depth tokens.old) result tokens.new }
    {
        tokens.skip();
        if self.depth == 0 {
            return Err(ParseFault::TooDeep(tokens.taken()));
        }
        Ok(())
    }

    // Parses a first operand and the links after it.
    fn parse_chain<P>(
        &self,
        tokens: &mut Cursor<'_>,
        level: ChainLevel,
        operand: P,
    ) -> Result<Box<Written>, ParseFault>
    where
        P: Fn(&ExpressionParser<F>, &mut Cursor<'_>) -> Result<Box<Written>, ParseFault> + Copy,
        requires { Operands self.now.depth level (P.pre operand self) (P.post operand self) }
        ensures { ReadsBoxed (spec.chain_of self.now.depth (spec.nested self.now.depth) level tokens.old) result tokens.new }
    {
        let start = tokens.start();
        let first = operand(self, tokens)?;
        let links = self.parse_links(tokens, level, operand);
        finish_chain(self.alloc, first, links, span_from(start, tokens))
    }

    // Parses signs, each with the operand after it.
    #[tactic(auto, using(cedar_parser_tokens::proofs::Turns::one_left), unfolding(crate::specs::Reading::links_from))]
    fn parse_links<P>(
        &self,
        tokens: &mut Cursor<'_>,
        level: ChainLevel,
        operand: P,
    ) -> Result<Vec<Link>, ParseFault>
    where
        P: Fn(&ExpressionParser<F>, &mut Cursor<'_>) -> Result<Box<Written>, ParseFault> + Copy,
        requires { Operands self.now.depth level (P.pre operand self) (P.post operand self) }
        ensures { ReadsItems (spec.links_of self.now.depth (spec.nested self.now.depth) level tokens.old) result tokens.new }
    {
        let mut found = Vec::new(self.alloc);
        for _turn in 0..tokens.left() {
            let Some(sign) = chain_sign(level, tokens.kind()) else {
                return Ok(found);
            };
            tokens.skip();
            let operand = operand(self, tokens)?;
            push_operand(&mut found, sign, operand)?;
        }
        Ok(found)
    }

    #[tactic(auto, unfolding(crate::specs::Reading::or))]
    fn parse_or(&self, tokens: &mut Cursor<'_>) -> Result<Box<Written>, ParseFault>
        requires { Nests self.now.depth (F.pre self.now.inner) (F.post self.now.inner) }
        ensures { ReadsBoxed (spec.or self.now.depth (spec.nested self.now.depth) tokens.old) result tokens.new }
    {
        self.parse_chain(tokens, ChainLevel::Or, ExpressionParser::parse_and)
    }

    #[tactic(auto, unfolding(crate::specs::Reading::and))]
    fn parse_and(&self, tokens: &mut Cursor<'_>) -> Result<Box<Written>, ParseFault>
        requires { Nests self.now.depth (F.pre self.now.inner) (F.post self.now.inner) }
        ensures { ReadsBoxed (spec.and self.now.depth (spec.nested self.now.depth) tokens.old) result tokens.new }
    {
        self.parse_chain(tokens, ChainLevel::And, ExpressionParser::parse_relation)
    }

    #[tactic(auto, unfolding(crate::specs::Reading::relation))]
    fn parse_relation(&self, tokens: &mut Cursor<'_>) -> Result<Box<Written>, ParseFault>
        requires { Nests self.now.depth (F.pre self.now.inner) (F.post self.now.inner) }
        ensures { ReadsBoxed (spec.relation self.now.depth (spec.nested self.now.depth) tokens.old) result tokens.new }
    {
        let start = tokens.start();
        let left = self.parse_add(tokens)?;
        self.parse_relation_tail(tokens, start, left)
    }

    // Parses what follows the left operand of a relation.
    #[tactic(auto, unfolding(crate::specs::Reading::relation_from))]
    fn parse_relation_tail(
        &self,
        tokens: &mut Cursor<'_>,
        start: usize,
        left: Box<Written>,
    ) -> Result<Box<Written>, ParseFault>
        requires { Nests self.now.depth (F.pre self.now.inner) (F.post self.now.inner) }
        ensures { ReadsBoxed (spec.relation_from self.now.depth (spec.nested self.now.depth) left.value tokens.old) result tokens.new }
    {
        if tokens.sees(TokenKind::Has) {
            tokens.skip();
            return parse_has(self.alloc, tokens, start, left);
        }
        if tokens.sees(TokenKind::Like) {
            tokens.skip();
            return parse_like(self.alloc, tokens, start, left);
        }
        if tokens.sees(TokenKind::Is) {
            tokens.skip();
            return self.parse_is(tokens, start, left);
        }
        self.parse_binary_relation(tokens, start, left)
    }

    // Parses what follows `is`: a type, and perhaps `in` with an operand.
    #[tactic(auto, unfolding(crate::specs::Reading::typed))]
    fn parse_is(
        &self,
        tokens: &mut Cursor<'_>,
        start: usize,
        left: Box<Written>,
    ) -> Result<Box<Written>, ParseFault>
        requires { Nests self.now.depth (F.pre self.now.inner) (F.post self.now.inner) }
        ensures { ReadsBoxed (spec.typed self.now.depth (spec.nested self.now.depth) left.value tokens.old) result tokens.new }
    {
        match parse_path(self.alloc, tokens) {
            Ok(ty) => self.parse_is_in(tokens, start, left, ty),
            Err(fault) => {
                drop(left);
                Err(fault)
            }
        }
    }

    // Parses `in` with its operand after `is` and the type, if it follows.
    #[tactic(auto, unfolding(crate::specs::Reading::of_type))]
    fn parse_is_in(
        &self,
        tokens: &mut Cursor<'_>,
        start: usize,
        left: Box<Written>,
        ty: Name,
    ) -> Result<Box<Written>, ParseFault>
        requires { Nests self.now.depth (F.pre self.now.inner) (F.post self.now.inner) }
        ensures { ReadsBoxed (spec.of_type self.now.depth (spec.nested self.now.depth) left.value ty tokens.old) result tokens.new }
    {
        tokens.pass_colons();
        if !tokens.sees(TokenKind::In) {
            return Ok(is(self.alloc, left, ty, span_from(start, tokens))?);
        }
        tokens.skip();
        match self.parse_add(tokens) {
            Ok(right) => {
                let span = span_from(start, tokens);
                Ok(is_in(self.alloc, left, ty, right, span)?)
            }
            Err(fault) => {
                drop(left);
                Err(fault)
            }
        }
    }

    // Parses a sign and the operand after it, if they follow.
    #[tactic(auto, unfolding(crate::specs::Reading::related))]
    fn parse_binary_relation(
        &self,
        tokens: &mut Cursor<'_>,
        start: usize,
        left: Box<Written>,
    ) -> Result<Box<Written>, ParseFault>
        requires { Nests self.now.depth (F.pre self.now.inner) (F.post self.now.inner) }
        ensures { ReadsBoxed (spec.related self.now.depth (spec.nested self.now.depth) left.value tokens.old) result tokens.new }
    {
        let Some(sign) = relation_sign(tokens.kind()) else {
            return Ok(left);
        };
        tokens.skip();
        match self.parse_add(tokens) {
            Ok(right) => {
                let span = span_from(start, tokens);
                Ok(relation(self.alloc, sign, left, right, span)?)
            }
            Err(fault) => {
                drop(left);
                Err(fault)
            }
        }
    }

    #[tactic(auto, unfolding(crate::specs::Reading::add))]
    fn parse_add(&self, tokens: &mut Cursor<'_>) -> Result<Box<Written>, ParseFault>
        requires { Nests self.now.depth (F.pre self.now.inner) (F.post self.now.inner) }
        ensures { ReadsBoxed (spec.add self.now.depth (spec.nested self.now.depth) tokens.old) result tokens.new }
    {
        self.parse_chain(tokens, ChainLevel::Add, ExpressionParser::parse_mult)
    }

    #[tactic(auto, unfolding(crate::specs::Reading::mult))]
    fn parse_mult(&self, tokens: &mut Cursor<'_>) -> Result<Box<Written>, ParseFault>
        requires { Nests self.now.depth (F.pre self.now.inner) (F.post self.now.inner) }
        ensures { ReadsBoxed (spec.mult self.now.depth (spec.nested self.now.depth) tokens.old) result tokens.new }
    {
        self.parse_chain(tokens, ChainLevel::Mult, ExpressionParser::parse_unary)
    }

    #[tactic(auto, unfolding(crate::specs::Reading::unary))]
    fn parse_unary(&self, tokens: &mut Cursor<'_>) -> Result<Box<Written>, ParseFault>
        requires { Nests self.now.depth (F.pre self.now.inner) (F.post self.now.inner) }
        ensures { ReadsBoxed (spec.unary self.now.depth (spec.nested self.now.depth) tokens.old) result tokens.new }
    {
        if tokens.sees(TokenKind::Minus) {
            return self.parse_minuses(tokens, 4);
        }
        self.parse_nots(tokens, 4)
    }

    // Parses up to `most` of `!`, and then a member.
    #[tactic(auto, unfolding(crate::specs::Reading::nots))]
    fn parse_nots(&self, tokens: &mut Cursor<'_>, most: u8) -> Result<Box<Written>, ParseFault>
        requires { Nests self.now.depth (F.pre self.now.inner) (F.post self.now.inner) }
        ensures { ReadsBoxed (spec.nots self.now.depth (spec.nested self.now.depth) most tokens.old) result tokens.new }
    {
        if most == 0 {
            return self.parse_member(tokens);
        }
        if !tokens.sees(TokenKind::Not) {
            return self.parse_member(tokens);
        }
        let start = tokens.start();
        tokens.skip();
        let operand = self.parse_nots(tokens, most - 1)?;
        Ok(not(self.alloc, operand, span_from(start, tokens))?)
    }

    // Parses up to `most` of `-`, and then a member.
    #[tactic(auto, unfolding(crate::specs::Reading::minuses))]
    fn parse_minuses(&self, tokens: &mut Cursor<'_>, most: u8) -> Result<Box<Written>, ParseFault>
        requires { Nests self.now.depth (F.pre self.now.inner) (F.post self.now.inner) }
        ensures { ReadsBoxed (spec.minuses self.now.depth (spec.nested self.now.depth) most tokens.old) result tokens.new }
    {
        if most == 0 {
            return self.parse_member(tokens);
        }
        if !tokens.sees(TokenKind::Minus) {
            return self.parse_member(tokens);
        }
        let start = tokens.start();
        tokens.skip();
        let operand = self.parse_minuses(tokens, most - 1)?;
        Ok(minus(self.alloc, operand, span_from(start, tokens))?)
    }

    #[tactic(auto, unfolding(crate::specs::Reading::member))]
    fn parse_member(&self, tokens: &mut Cursor<'_>) -> Result<Box<Written>, ParseFault>
        requires { Nests self.now.depth (F.pre self.now.inner) (F.post self.now.inner) }
        ensures { ReadsBoxed (spec.member self.now.depth (spec.nested self.now.depth) tokens.old) result tokens.new }
    {
        let start = tokens.start();
        let first = self.parse_primary(tokens)?;
        let links = self.parse_accesses(tokens);
        finish_chain(self.alloc, first, links, span_from(start, tokens))
    }

    // Parses accesses to the member before them. It is never inlined, so that a bracket without accesses needs little of the call
    // stack.
    #[tactic(auto, using(cedar_parser_tokens::proofs::Turns::one_left), unfolding(crate::specs::Reading::suffixes_from))]
    #[inline(never)]
    fn parse_accesses(&self, tokens: &mut Cursor<'_>) -> Result<Vec<Link>, ParseFault>
        requires { Nests self.now.depth (F.pre self.now.inner) (F.post self.now.inner) }
        ensures { ReadsItems (spec.suffixes self.now.depth (spec.nested self.now.depth) tokens.old) result tokens.new }
    {
        let mut found = Vec::new(self.alloc);
        for _turn in 0..tokens.left() {
            if !begins_access(tokens) {
                return Ok(found);
            }
            let link = self.parse_access(tokens)?;
            found.push(link)?;
        }
        Ok(found)
    }

    #[tactic(auto, unfolding(crate::specs::Reading::suffix))]
    fn parse_access(&self, tokens: &mut Cursor<'_>) -> Result<Link, ParseFault>
        requires { Nests self.now.depth (F.pre self.now.inner) (F.post self.now.inner) }
        ensures { Reads (spec.suffix self.now.depth (spec.nested self.now.depth) tokens.old) result tokens.new }
    {
        if tokens.sees(TokenKind::Dot) {
            tokens.skip();
            return self.parse_dot_access(tokens);
        }
        self.parse_index_access(tokens)
    }

    // Parses what follows a dot: an attribute, or a method with its arguments.
    #[tactic(auto, unfolding(crate::specs::Reading::dotted))]
    fn parse_dot_access(&self, tokens: &mut Cursor<'_>) -> Result<Link, ParseFault>
        requires { Nests self.now.depth (F.pre self.now.inner) (F.post self.now.inner) }
        ensures { Reads (spec.dotted self.now.depth (spec.nested self.now.depth) tokens.old) result tokens.new }
    {
        let token = tokens.expect(TokenKind::Identifier)?;
        if tokens.sees(TokenKind::LeftParen) {
            let name = Word::read(self.alloc, token.text(), token.start())?;
            return match self.parse_call_arguments(tokens) {
                Ok(arguments) => Ok(Link::Method(name, Series::new(arguments))),
                Err(fault) => {
                    drop(name);
                    Err(fault)
                }
            };
        }
        let word = Text::read(self.alloc, token.text())?;
        Ok(Link::Attribute(Content::new(Some(word), token.start())))
    }

    // Parses a string in square brackets.
    #[tactic(auto, unfolding(crate::specs::Reading::indexed))]
    fn parse_index_access(&self, tokens: &mut Cursor<'_>) -> Result<Link, ParseFault>
        requires { Nests self.now.depth (F.pre self.now.inner) (F.post self.now.inner) }
        ensures { Reads (spec.indexed self.now.depth tokens.old) result tokens.new }
    {
        self.enter_nesting(tokens)?;
        let key = parse_string(self.alloc, tokens)?;
        match tokens.expect(TokenKind::RightBracket) {
            Ok(_) => Ok(Link::Attribute(key)),
            Err(fault) => {
                drop(key);
                Err(fault)
            }
        }
    }

    #[tactic(auto, unfolding(crate::specs::Reading::primary, crate::specs::Private::Plain::plain, cedar_parser_tokens::specs::Reading::first, cedar_parser_tokens::specs::Reading::kind_at))]
    fn parse_primary(&self, tokens: &mut Cursor<'_>) -> Result<Box<Written>, ParseFault>
        requires { Nests self.now.depth (F.pre self.now.inner) (F.post self.now.inner) }
        ensures { ReadsBoxed (spec.primary self.now.depth (spec.nested self.now.depth) tokens.old) result tokens.new }
    {
        match tokens.kind() {
            Some(TokenKind::Identifier) => self.parse_path_or_variable(tokens),
            Some(TokenKind::LeftParen) => self.parse_group(tokens),
            Some(TokenKind::LeftBracket) => self.parse_set(tokens),
            Some(TokenKind::LeftBrace) => self.parse_record(tokens),
            _ => parse_plain(self.alloc, tokens),
        }
    }

    // Parses a call, a uid, or a variable.
    #[tactic(auto, unfolding(crate::specs::Reading::named))]
    fn parse_path_or_variable(&self, tokens: &mut Cursor<'_>) -> Result<Box<Written>, ParseFault>
        requires { Nests self.now.depth (F.pre self.now.inner) (F.post self.now.inner) }
        ensures { ReadsBoxed (spec.named self.now.depth (spec.nested self.now.depth) tokens.old) result tokens.new }
    {
        if begins_path(tokens) {
            return self.parse_call_or_entity(tokens);
        }
        parse_variable(self.alloc, tokens)
    }

    // Parses a call or a uid.
    #[tactic(auto, unfolding(crate::specs::Reading::with_path, crate::specs::Private::Plain::of_uid))]
    fn parse_call_or_entity(&self, tokens: &mut Cursor<'_>) -> Result<Box<Written>, ParseFault>
        requires { Nests self.now.depth (F.pre self.now.inner) (F.post self.now.inner) }
        ensures { ReadsBoxed (spec.with_path self.now.depth (spec.nested self.now.depth) tokens.old) result tokens.new }
    {
        let start = tokens.start();
        let path = parse_path(self.alloc, tokens)?;
        if tokens.sees(TokenKind::LeftParen) {
            let arguments = self.parse_call_arguments(tokens)?;
            return Ok(call(self.alloc, path, arguments, span_from(start, tokens))?);
        }
        parse_entity(self.alloc, tokens, start, path)
    }

    // Parses the arguments after a name.
    #[tactic(auto, unfolding(crate::specs::Reading::called))]
    fn parse_call_arguments(&self, tokens: &mut Cursor<'_>) -> Result<Vec<Written>, ParseFault>
        requires { Nests self.now.depth (F.pre self.now.inner) (F.post self.now.inner) }
        ensures { ReadsItems (spec.called self.now.depth (spec.nested self.now.depth) tokens.old) result tokens.new }
    {
        self.enter_nesting(tokens)?;
        self.parse_expression_list(tokens, TokenKind::RightParen)
    }

    #[tactic(auto, unfolding(crate::specs::Reading::group))]
    fn parse_group(&self, tokens: &mut Cursor<'_>) -> Result<Box<Written>, ParseFault>
        requires { Nests self.now.depth (F.pre self.now.inner) (F.post self.now.inner) }
        ensures { ReadsBoxed (spec.group self.now.depth (spec.nested self.now.depth) tokens.old) result tokens.new }
    {
        let start = tokens.start();
        self.enter_nesting(tokens)?;
        let inside = self.parse_nested_expression(tokens)?;
        match tokens.expect(TokenKind::RightParen) {
            Ok(_) => Ok(group(self.alloc, inside, span_from(start, tokens))?),
            Err(fault) => {
                drop(inside);
                Err(fault)
            }
        }
    }

    #[tactic(auto, unfolding(crate::specs::Reading::set))]
    fn parse_set(&self, tokens: &mut Cursor<'_>) -> Result<Box<Written>, ParseFault>
        requires { Nests self.now.depth (F.pre self.now.inner) (F.post self.now.inner) }
        ensures { ReadsBoxed (spec.set self.now.depth (spec.nested self.now.depth) tokens.old) result tokens.new }
    {
        let start = tokens.start();
        self.enter_nesting(tokens)?;
        let members = self.parse_expression_list(tokens, TokenKind::RightBracket)?;
        Ok(set(self.alloc, members, span_from(start, tokens))?)
    }

    #[tactic(auto, unfolding(crate::specs::Reading::record_of))]
    fn parse_record(&self, tokens: &mut Cursor<'_>) -> Result<Box<Written>, ParseFault>
        requires { Nests self.now.depth (F.pre self.now.inner) (F.post self.now.inner) }
        ensures { ReadsBoxed (spec.record_of self.now.depth (spec.nested self.now.depth) tokens.old) result tokens.new }
    {
        let start = tokens.start();
        self.enter_nesting(tokens)?;
        let fields = self.parse_field_list(tokens)?;
        Ok(record(self.alloc, fields, span_from(start, tokens))?)
    }

    // Parses expressions with commas between them, and the sign that closes them.
    #[tactic(auto, unfolding(crate::specs::Reading::arguments))]
    fn parse_expression_list(
        &self,
        tokens: &mut Cursor<'_>,
        closer: TokenKind,
    ) -> Result<Vec<Written>, ParseFault>
        requires { Nests self.now.depth (F.pre self.now.inner) (F.post self.now.inner) }
        ensures { ReadsItems (spec.arguments (spec.nested self.now.depth) closer tokens.old) result tokens.new }
    {
        if tokens.sees(closer) {
            tokens.skip();
            return Ok(Vec::new(self.alloc));
        }
        let found = self.parse_expressions(tokens)?;
        tokens.expect(closer)?;
        Ok(found)
    }

    #[tactic(auto, using(cedar_parser_tokens::proofs::Turns::one_left), unfolding(crate::specs::Reading::series_from))]
    fn parse_expressions(&self, tokens: &mut Cursor<'_>) -> Result<Vec<Written>, ParseFault>
        requires { Nests self.now.depth (F.pre self.now.inner) (F.post self.now.inner) }
        ensures { ReadsItems (spec.series (spec.nested self.now.depth) tokens.old) result tokens.new }
    {
        let mut found = Vec::new(self.alloc);
        let first = self.parse_nested_expression(tokens)?;
        push_item(&mut found, first)?;
        for _turn in 0..tokens.left() {
            if !tokens.sees(TokenKind::Comma) {
                return Ok(found);
            }
            tokens.skip();
            let item = self.parse_nested_expression(tokens)?;
            push_item(&mut found, item)?;
        }
        Ok(found)
    }

    // Parses fields with commas between them, and the brace that closes them.
    #[tactic(auto, unfolding(crate::specs::Reading::arguments))]
    fn parse_field_list(&self, tokens: &mut Cursor<'_>) -> Result<Vec<Field>, ParseFault>
        requires { Nests self.now.depth (F.pre self.now.inner) (F.post self.now.inner) }
        ensures { ReadsItems (spec.arguments (spec.entry (spec.nested self.now.depth)) TokenKind.RightBrace tokens.old) result tokens.new }
    {
        if tokens.sees(TokenKind::RightBrace) {
            tokens.skip();
            return Ok(Vec::new(self.alloc));
        }
        let found = self.parse_fields(tokens)?;
        tokens.expect(TokenKind::RightBrace)?;
        Ok(found)
    }

    #[tactic(auto, using(cedar_parser_tokens::proofs::Turns::one_left), unfolding(crate::specs::Reading::series_from))]
    fn parse_fields(&self, tokens: &mut Cursor<'_>) -> Result<Vec<Field>, ParseFault>
        requires { Nests self.now.depth (F.pre self.now.inner) (F.post self.now.inner) }
        ensures { ReadsItems (spec.series (spec.entry (spec.nested self.now.depth)) tokens.old) result tokens.new }
    {
        let mut found = Vec::new(self.alloc);
        let first = self.parse_field(tokens)?;
        push_field(&mut found, first)?;
        for _turn in 0..tokens.left() {
            if !tokens.sees(TokenKind::Comma) {
                return Ok(found);
            }
            tokens.skip();
            let field = self.parse_field(tokens)?;
            push_field(&mut found, field)?;
        }
        Ok(found)
    }

    #[tactic(auto, unfolding(crate::specs::Reading::entry))]
    fn parse_field(&self, tokens: &mut Cursor<'_>) -> Result<BoxedField, ParseFault>
        requires { Nests self.now.depth (F.pre self.now.inner) (F.post self.now.inner) }
        ensures { ReadsField (spec.entry (spec.nested self.now.depth) tokens.old) result tokens.new }
    {
        let key = parse_key(self.alloc, tokens)?;
        tokens.expect(TokenKind::Colon)?;
        let value = self.parse_nested_expression(tokens)?;
        Ok(BoxedField { key, value })
    }

    #[tactic(auto, unfolding(crate::specs::Reading::choice))]
    fn parse_if(&self, tokens: &mut Cursor<'_>) -> Result<Box<Written>, ParseFault>
        requires { Nests self.now.depth (F.pre self.now.inner) (F.post self.now.inner) }
        ensures { ReadsBoxed (spec.choice self.now.depth (spec.nested self.now.depth) tokens.old) result tokens.new }
    {
        self.enter_nesting(tokens)?;
        let condition = self.parse_nested_expression(tokens)?;
        match tokens.expect(TokenKind::Then) {
            Ok(_) => self.parse_branches(tokens, condition),
            Err(fault) => {
                drop(condition);
                Err(fault)
            }
        }
    }

    // Parses both branches of an `if`, after `then`.
    #[tactic(auto, unfolding(crate::specs::Reading::branches))]
    fn parse_branches(
        &self,
        tokens: &mut Cursor<'_>,
        condition: Box<Written>,
    ) -> Result<Box<Written>, ParseFault>
        requires { Nests self.now.depth (F.pre self.now.inner) (F.post self.now.inner) }
        ensures { ReadsBoxed (spec.branches self.now.depth (spec.nested self.now.depth) condition.value tokens.old) result tokens.new }
    {
        match self.parse_then_branch(tokens) {
            Ok(if_true) => self.parse_else_branch(tokens, condition, if_true),
            Err(fault) => {
                drop(condition);
                Err(fault)
            }
        }
    }

    // Parses the branch before `else`, and takes `else`.
    #[tactic(auto, unfolding(crate::specs::Reading::before_else))]
    fn parse_then_branch(&self, tokens: &mut Cursor<'_>) -> Result<Box<Written>, ParseFault>
        requires { Nests self.now.depth (F.pre self.now.inner) (F.post self.now.inner) }
        ensures { ReadsBoxed (spec.before_else self.now.depth (spec.nested self.now.depth) tokens.old) result tokens.new }
    {
        let if_true = self.parse_nested_expression(tokens)?;
        match tokens.expect(TokenKind::Else) {
            Ok(_) => Ok(if_true),
            Err(fault) => {
                drop(if_true);
                Err(fault)
            }
        }
    }

    // Parses the branch after `else`.
    #[tactic(auto, unfolding(crate::specs::Reading::behind_else))]
    fn parse_else_branch(
        &self,
        tokens: &mut Cursor<'_>,
        condition: Box<Written>,
        if_true: Box<Written>,
    ) -> Result<Box<Written>, ParseFault>
        requires { Nests self.now.depth (F.pre self.now.inner) (F.post self.now.inner) }
        ensures { ReadsBoxed (spec.behind_else self.now.depth (spec.nested self.now.depth) condition.value if_true.value tokens.old) result tokens.new }
    {
        match self.parse_nested_expression(tokens) {
            Ok(if_false) => Ok(if_else(self.alloc, condition, if_true, if_false)?),
            Err(fault) => {
                drop(condition);
                drop(if_true);
                Err(fault)
            }
        }
    }

    #[tactic(auto, unfolding(crate::specs::Reading::expression))]
    fn parse_expression(&self, tokens: &mut Cursor<'_>) -> Result<Box<Written>, ParseFault>
        requires { Nests self.now.depth (F.pre self.now.inner) (F.post self.now.inner) }
        ensures { ReadsBoxed (spec.expression self.now.depth (spec.nested self.now.depth) tokens.old) result tokens.new }
    {
        if tokens.sees(TokenKind::If) {
            return self.parse_if(tokens);
        }
        self.parse_or(tokens)
    }
}

/// Parses an expression with fewer than `depth` brackets and `if`s open at one place.
///
/// # Errors
///
/// 1 when out of memory, 201 where the tokens do not begin with an expression, 202 where it nests too deep.
pub fn parse_expression(
    alloc: Global,
    tokens: &mut Cursor<'_>,
    depth: u8,
) -> Result<Written, ParseFault>
    ensures { Reads (spec.nested depth tokens.old) result tokens.new }
{
    let written = parse_nested(alloc, tokens, depth)?;
    Ok(Box::into_inner(written))
}

// Parses an expression, as `parse_expression` does, into a box.
fn parse_nested(
    alloc: Global,
    tokens: &mut Cursor<'_>,
    depth: u8,
) -> Result<Box<Written>, ParseFault>
    ensures { ReadsBoxed (spec.nested depth tokens.old) result tokens.new }
{
    if depth == 0 {
        return Err(ParseFault::TooDeep(tokens.taken()));
    }
    ExpressionParser {
        alloc,
        depth: depth - 1,
        inner: parse_nested,
    }
    .parse_expression(tokens)
}
