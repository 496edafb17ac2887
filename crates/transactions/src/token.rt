// The token of an open transaction: it is owed to commit or abort, once.
ghost use Rattle.transactions.specs.declared.token.Token.{Token};
ghost use Rattle.std.specs.Prelude.{◌≡◌};

/// It has the number of the transaction that it was given for, by which alone it fits. It may not be let go,
/// having no `Drop`: a program that forgets one on any way out is refused.
pub struct Token {
    number: u64,
}

impl Token {
    pub fn number(&self) -> u64
        ensures { result ≡ self.now.number }
    {
        self.number
    }

    pub(crate) fn new(number: u64) -> Token
        ensures { result.number ≡ number }
    {
        Token { number }
    }

    // Spends the token: this and no other way ends it.
    pub(crate) fn spend(self) -> u64
        ensures { result ≡ self.number }
    {
        let Token { number } = self;
        number
    }
}
