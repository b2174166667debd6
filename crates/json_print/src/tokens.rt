// What takes the tokens of a JSON text.
ghost use Rattle.std.specs.Prelude.{◌∷◌, ◌++◌, [], List, OnOk, decimal};
ghost use Rattle.std.specs.Fmt.{signed_decimal};
ghost use Rattle.json.specs.Token as token;
ghost use Rattle.json.specs.Token.{Token};
ghost use Rattle.json_print.specs.Tokens.{Adds};

use json::Writer;
use std::alloc::AllocError;

/// What takes the tokens of a JSON text one after another: a writer prints them, and a
/// [`Length`](crate::Length) counts their bytes. What takes a token fails as that type does, and is
/// of no more use then.
pub trait Tokens {
    /// Why a token isn't taken.
    type Error: Drop;

    /// These tokens came in after the former ones.
    ghost adds: { Self → Self → List Token → Type 0 };

    /// Begins an object.
    fn begin_object(&mut self) -> Result<(), Self::Error>
        ensures { OnOk result (adds self.old self.new (token.begin_object ∷ [])) };

    /// Ends an object.
    fn end_object(&mut self) -> Result<(), Self::Error>
        ensures { OnOk result (adds self.old self.new (token.end_object ∷ [])) };

    /// Begins an array.
    fn begin_array(&mut self) -> Result<(), Self::Error>
        ensures { OnOk result (adds self.old self.new (token.begin_array ∷ [])) };

    /// Ends an array.
    fn end_array(&mut self) -> Result<(), Self::Error>
        ensures { OnOk result (adds self.old self.new (token.end_array ∷ [])) };

    /// A name and its colon.
    fn key(&mut self, name: &str) -> Result<(), Self::Error>
        ensures { OnOk result (adds self.old self.new (token.key name.now ∷ [])) };

    /// A text.
    fn string(&mut self, text: &str) -> Result<(), Self::Error>
        ensures { OnOk result (adds self.old self.new (token.string text.now ∷ [])) };

    /// A whole number from 0 on, in decimal.
    fn u64(&mut self, count: u64) -> Result<(), Self::Error>
        ensures { OnOk result (adds self.old self.new (token.number (decimal count) ∷ [])) };

    /// A whole number, in decimal.
    fn i64(&mut self, number: i64) -> Result<(), Self::Error>
        ensures { OnOk result (adds self.old self.new (token.number (signed_decimal number) ∷ [])) };

    /// A truth value.
    fn boolean(&mut self, flag: bool) -> Result<(), Self::Error>
        ensures { OnOk result (adds self.old self.new (token.boolean flag ∷ [])) };

    /// Null.
    fn null(&mut self) -> Result<(), Self::Error>
        ensures { OnOk result (adds self.old self.new (token.null ∷ [])) };

    ghost nothing: { (w : Self) → adds w w [] };

    ghost then: { (a b c : Self) (xs ys : List Token) → adds a b xs → adds b c ys → adds a c (xs ++ ys) };
}

impl Tokens for Writer {
    ghost use Rattle.json_print.specs.TokenLaws.{nothing as nothing_written, then as then_written};

    type Error = AllocError;

    ghost adds = { Adds };

    ghost nothing = { nothing_written };

    ghost then = { then_written };

    fn begin_object(&mut self) -> Result<(), AllocError> {
        self.begin_object()
    }

    fn end_object(&mut self) -> Result<(), AllocError> {
        self.end_object()
    }

    fn begin_array(&mut self) -> Result<(), AllocError> {
        self.begin_array()
    }

    fn end_array(&mut self) -> Result<(), AllocError> {
        self.end_array()
    }

    fn key(&mut self, name: &str) -> Result<(), AllocError> {
        self.key(name)
    }

    fn string(&mut self, text: &str) -> Result<(), AllocError> {
        self.string(text)
    }

    fn u64(&mut self, count: u64) -> Result<(), AllocError> {
        self.u64(count)
    }

    fn i64(&mut self, number: i64) -> Result<(), AllocError> {
        self.i64(number)
    }

    fn boolean(&mut self, flag: bool) -> Result<(), AllocError> {
        self.boolean(flag)
    }

    fn null(&mut self) -> Result<(), AllocError> {
        self.null()
    }
}
