// What is kept of a token that is read: a name, a literal or a string as a value on the stack.

ghost use Rattle.std.specs.Prelude.{◌≡◌, ◌∷◌, OnOk, IsTrue};
ghost use Rattle.c_text.specs.CGrammar.{IsName};
ghost use Rattle.c_text.specs.CSpelling.{is_string};
ghost use Rattle.c_read_grammar.specs.Texts.{IsToken};
ghost use Rattle.c_read_grammar.specs.Values.{kept, a_name, a_string};
ghost use Rattle.c_read_tokens.specs.Kinds.{token_of};
ghost use Rattle.c_read_nodes.specs.Makers.{made, IsFit};

use crate::maker::Maker;
use crate::values::SemanticValue;
use c_read_tokens::Kind;
use wf_text::NoMemory;

impl Maker {
    /// A token that is read is kept where it holds something.
    pub fn keep(&mut self, kind: Kind, text: &[u8]) -> Result<(), NoMemory>
        requires fit { IsFit self.old }
        requires token { IsToken (token_of kind text.now) }
        ensures made { OnOk result (made self.new ≡ kept (token_of kind text.now) (made self.old)) }
        ensures fit { OnOk result (IsFit self.new) }
    {
        match kind {
            Kind::Name => self.keep_name(text),
            Kind::Text => self.keep_text(text),
            Kind::Number(number) => self.values.push(SemanticValue::Number(number)),
            _ => Ok(()),
        }
    }

    /// Keeps a name.
    fn keep_name(&mut self, text: &[u8]) -> Result<(), NoMemory>
        requires fit { IsFit self.old }
        requires token { IsName text.now }
        ensures made { OnOk result (made self.new ≡ a_name text.now ∷ made self.old) }
        ensures fit { OnOk result (IsFit self.new) }
    {
        self.unit.is_sound();
        let name = self.unit.add_name(text)?;
        self.values.push(SemanticValue::Name(name))
    }

    /// Keeps a string.
    fn keep_text(&mut self, text: &[u8]) -> Result<(), NoMemory>
        requires fit { IsFit self.old }
        requires token { IsTrue (is_string text.now) }
        ensures made { OnOk result (made self.new ≡ a_string text.now ∷ made self.old) }
        ensures fit { OnOk result (IsFit self.new) }
    {
        self.unit.is_sound();
        let string = self.unit.add_string(text)?;
        self.values.push(SemanticValue::Text(string))
    }
}
