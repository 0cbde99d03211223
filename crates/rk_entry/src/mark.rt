ghost use Rattle.std.specs.Prelude.{◌≡◌};
ghost use Rattle.rk_entry.specs.Spelling.{mark_of};

/// The mark after these bytes: their sum, modulo 256.
#[tactic(auto, unfolding(crate::specs::Spelling::mark_of))]
pub fn mark_of(bytes: &[u8]) -> u8
    ensures { result ≡ mark_of bytes.now }
{
    let mut mark: u8 = 0;
    'bytes: for byte in bytes {
        mark = mark.wrapping_add(*byte);
    }
    mark
}
