// The places for tokens that a script lends.
ghost use Rattle.law.specs.Run.{token_at, is_free};
ghost use Rattle.std.specs.Prelude.{◌≡◌, Some, None, MatchOption, slice_set};

use device::Device;
use transactions::{Store, Token};

// Takes the token out of a place: none where it is empty or not there.
pub(crate) fn take(places: &mut [Option<Token>], place: usize) -> Option<Token>
    ensures taken { result ≡ token_at places.old place }
    ensures left { places.new ≡ slice_set places.old place None }
{
    if place < places.len() {
        places[place].take()
    } else {
        None
    }
}

// Whether a token may be put into a place.
pub(crate) fn is_free(places: &[Option<Token>], place: usize) -> bool
    ensures { result ≡ is_free places.now place }
{
    place < places.len() && places[place].is_none()
}

// Shows the token in a place.
pub(crate) fn shown(places: &[Option<Token>], place: usize) -> Option<&Token>
    ensures { MatchOption result (token_at places.now place ≡ None) (λ t. token_at places.now place ≡ Some t.now) }
{
    if place < places.len() {
        places[place].as_ref()
    } else {
        None
    }
}

// Puts a token into an empty place. What can't be there is spent, since no token may be let go.
pub(crate) fn put<D: Device>(store: &mut Store<D>, place: &mut Option<Token>, token: Token)
    requires { place.old ≡ None }
    ensures put { place.new ≡ Some token }
    ensures store { store.new ≡ store.old }
{
    if let Some(old) = place.replace(token) {
        let _ = store.abort(old);
    }
}
