//! Whether an input has a head of brotli, which has no mark (RFC 7932, 9.1 and 9.2).
ghost use Rattle.std.specs.Prelude.{◌≡◌};
ghost use Rattle.mvt_places.specs.Lookalikes as spec;

/// Whether the input begins with a window and a block that is longer than the input, but not
/// absurdly longer.
#[tactic(auto, unfolding(crate::specs::Lookalikes::is_brotli))]
pub(crate) fn is_brotli(input: &[u8]) -> bool
    ensures { result ≡ spec.is_brotli input.now }
{
    let [a, b, c, d, e, rest @ ..] = input else {
        return false;
    };
    let bits = u64::from(*a)
        + 256 * u64::from(*b)
        + 65_536 * u64::from(*c)
        + 16_777_216 * u64::from(*d)
        + 4_294_967_296 * u64::from(*e);
    rest.len() > 14 && bits % 128 != 17 && is_block(input.len() as u64, behind_window(bits))
}

/// The bits behind those of the window.
#[tactic(auto, unfolding(crate::specs::Lookalikes::behind_window))]
fn behind_window(bits: u64) -> u64
    ensures { result ≡ spec.behind_window bits }
{
    if bits % 2 == 0 {
        bits / 2
    } else if bits / 2 % 8 == 0 {
        bits / 128
    } else {
        bits / 16
    }
}

/// Whether the bits are the head of a first block that fits a file of so many bytes.
#[tactic(auto, unfolding(crate::specs::Lookalikes::is_block))]
fn is_block(size: u64, bits: u64) -> bool
    ensures { result ≡ spec.is_block size bits }
{
    let is_last = bits % 2 == 1;
    let rest = if is_last { bits / 4 } else { bits / 2 };
    let most = if rest % 4 == 0 {
        65_536
    } else if rest % 4 == 1 {
        1_048_576
    } else {
        16_777_216
    };
    let block = rest / 4 % most + 1;
    bits % 4 != 3
        && rest % 4 != 3
        && (is_last || rest / 4 / most % 2 == 0)
        && (most == 65_536 || most / 16 < block)
        && size < block
        && block < 200 * size
}
