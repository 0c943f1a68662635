ghost use Rattle.std.specs.Prelude.{◌≡◌, [], ◌∷◌, ◌++◌, OnOk, codes, map};
ghost use Rattle.jl_print.specs.inner.Kinds.{kind_of};
ghost use Rattle.jl_print.specs.Pieces.{name, key, string, punct};
ghost use Rattle.jl_token.specs.declared.token.TokenKind.TheVariants as kinds;

use jl_num::Num;
use jl_text::{NoMemory, Text};
use jl_token::Punct;
use std::alloc::Global;
use std::marker::Model;

/// A token of the text, which borrows from the tree what it is spelled as.
#[derive(Clone, Copy, Drop)]
pub(crate) enum Piece<'a> {
    /// A word of the language, in ASCII.
    Word(&'a [u8]),
    /// A name of the program.
    Name(&'a [u16]),
    /// The key of a property (11.1.5).
    Key(&'a [u16]),
    Punct(Punct),
    Number(&'a Num),
    Str(&'a [u16]),
    /// The directive of strict code (14.1).
    Strict,
}

/// The tokens that are collected so far. Contracts see them as a list.
#[derive(Drop)]
pub(crate) struct Pieces<'a> {
    pieces: Vec<Piece<'a>>,
}

impl<'a> Model for Pieces<'a> {
    ghost use Rattle.std.specs.Prelude.{List, map};
    ghost use Rattle.jl_token.specs.declared.token.TokenKind.{TokenKind};
    ghost use Rattle.jl_print.specs.inner.Kinds.{kind_of};

    ghost Value = { List TokenKind };

    ghost view = { λ it. map kind_of it.pieces.items };
}

impl<'a> Pieces<'a> {
    /// No tokens.
    pub fn new(alloc: Global) -> Pieces<'a>
        ensures { result ≡ [] }
    {
        Pieces {
            pieces: Vec::new(alloc),
        }
    }

    /// The tokens, in their order.
    pub fn items(&self) -> &[Piece<'a>]
        ensures { map kind_of result.now ≡ self.now }
    {
        self.pieces.as_slice()
    }

    /// A word of the language, in ASCII, comes next.
    pub fn word(&mut self, word: &'a [u8]) -> Result<(), NoMemory>
        ensures { OnOk result (self.new ≡ self.old ++ name word.now ∷ []) }
    {
        self.pieces.push(Piece::Word(word))?;
        Ok(())
    }

    /// A name of the program comes next (7.6).
    pub fn name(&mut self, text: &'a Text) -> Result<(), NoMemory>
        ensures { OnOk result (self.new ≡ self.old ++ name text.now ∷ []) }
    {
        self.pieces.push(Piece::Name(text.units()))?;
        Ok(())
    }

    /// The key of a property comes next (11.1.5).
    pub fn key(&mut self, text: &'a Text) -> Result<(), NoMemory>
        ensures { OnOk result (self.new ≡ self.old ++ key text.now ∷ []) }
    {
        self.pieces.push(Piece::Key(text.units()))?;
        Ok(())
    }

    /// A punctuator comes next (7.7).
    pub fn punct(&mut self, mark: Punct) -> Result<(), NoMemory>
        ensures { OnOk result (self.new ≡ self.old ++ punct mark ∷ []) }
    {
        self.pieces.push(Piece::Punct(mark))?;
        Ok(())
    }

    /// A string comes next (7.8.4).
    pub fn string(&mut self, text: &'a Text) -> Result<(), NoMemory>
        ensures { OnOk result (self.new ≡ self.old ++ string text.now ∷ []) }
    {
        self.pieces.push(Piece::Str(text.units()))?;
        Ok(())
    }

    /// A number comes next (7.8.3).
    pub fn number(&mut self, number: &'a Num) -> Result<(), NoMemory>
        ensures { OnOk result (self.new ≡ self.old ++ kinds.Number number.now ∷ []) }
    {
        self.pieces.push(Piece::Number(number))?;
        Ok(())
    }

    /// The directive of strict code comes next (14.1).
    pub fn strict(&mut self) -> Result<(), NoMemory>
        ensures { OnOk result (self.new ≡ self.old ++ string (codes "use strict") ∷ []) }
    {
        self.pieces.push(Piece::Strict)?;
        Ok(())
    }
}
