// The token that the console holds.
use crate::answer::Refusal;
use battery::Battery;
use device::Device;
use transactions::{Store, Token};

// At most one token. It may not be let go, so neither may this, which ends by `end`.
pub struct Held {
    token: Option<Token>,
    // The store that gave the token is closed.
    stale: bool,
}

// Spends a token, if there is one, without an answer.
fn spend<D: Device>(store: &mut Store<D>, token: Option<Token>) {
    if let Some(token) = token {
        let _ = store.abort(token);
    }
}

impl Held {
    pub fn nothing() -> Held {
        Held {
            token: None,
            stale: false,
        }
    }

    // The token, to be shown.
    pub fn token(&self) -> Result<&Token, Refusal> {
        self.token.as_ref().ok_or(Refusal::NotNow)
    }

    // Gives the token away, to be spent.
    pub fn give(&mut self) -> Result<Token, Refusal> {
        self.stale = false;
        self.token.take().ok_or(Refusal::NotNow)
    }

    // Begins a transaction, and holds its token; not while a stale one is held. Answers its number.
    pub fn begin<D: Device>(&mut self, store: &mut Store<D>) -> Result<u64, Refusal> {
        if self.stale {
            return Err(Refusal::NotNow);
        }
        let token = store.begin()?;
        let number = token.number();
        // A store that gave a token gives no second one before it is spent, so none was held; one that was is spent.
        let before = self.token.replace(token);
        spend(store, before);
        Ok(number)
    }

    // The store is closed: a token that is still held is stale from now on.
    pub fn outlast(&mut self) {
        self.stale = self.token.is_some();
    }

    // The store is let go: a token that is held is spent there.
    pub fn lay_down<D: Device>(&mut self, store: &mut Store<D>) {
        self.stale = false;
        spend(store, self.token.take());
    }

    // Nothing is left to be done: a token that is still held is spent in a store of its own.
    pub fn end(self) {
        let Held { token, stale: _ } = self;
        if let Some(token) = token {
            let (mut store, _made) = Store::format(Battery::new(0));
            let _ = store.abort(token);
        }
    }
}
