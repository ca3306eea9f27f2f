//! Laws about a desk. A law is a function that does nothing: its contract is what is proved.

ghost use Rattle.std.specs.Prelude.{◌≡◌, ℕ, true, List};
ghost use Rattle.keyring_trait.specs.Manager.{ManagerGoes};
ghost use Rattle.keyring_trait.specs.Saying.{said_last};
ghost use Rattle.keyring_trait.specs.Wrapping.{WrapKeyValue};
ghost use Rattle.desk_core.specs.Laws.{ActsAlone, FeedsMachines, FindsItsOwn, HandsItsOwn};

use keyring_trait::Manager;

/// No session sees another. A call answers and changes its own session from what that is worth
/// alone, and leaves every other as it was. So whatever the calls and their order, what a session
/// is handed is what it is handed by its own calls alone.
pub fn sessions_stand_apart()
    ensures call { ActsAlone }
    ensures calls { HandsItsOwn }
{}

/// A session that is fed is fed as its sealer or opener is: it uses as many bytes, gives what that
/// gives, and fails as that fails. So what these promise of a piece that is fed to its end, a
/// session of a desk promises too.
pub fn sessions_are_fed_as_their_machines()
    ensures { FeedsMachines }
{}

/// Over a manager that tells its keys and is steady, a message is unlocked with what its own header
/// and given pairs say, whatever other sessions asked: the whole context, the pairs that are only
/// authenticated, and the key that the told keys find.
pub fn messages_are_unlocked_by_their_own<M: Manager>(before: &M, after: &M)
    ensures { (keys : List WrapKeyValue) (now : ℕ) → (M.state before.now).tells keys
        → (M.state before.now).meaning.steady ≡ true
        → ManagerGoes (M.state before.now).meaning (M.state after.now).meaning
        → FindsItsOwn (said_last (M.state before.now) (M.state after.now)) now keys }
{}
