// What events show.
ghost use Rattle.std.specs.Prelude.{◌≡◌, false, true, None};

use rk_world::Seen;

/// Nothing was sent, and nothing lost.
pub(crate) fn quiet() -> Seen
    ensures { result ≡ record { first = 0; sent = 0; lost = false; taken = None } }
{
    Seen {
        first: 0,
        sent: 0,
        lost: false,
        taken: None,
    }
}

/// The message was lost.
pub(crate) fn lost() -> Seen
    ensures { result ≡ record { first = 0; sent = 0; lost = true; taken = None } }
{
    Seen {
        first: 0,
        sent: 0,
        lost: true,
        taken: None,
    }
}
