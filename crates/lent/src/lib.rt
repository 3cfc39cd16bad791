// Writing into a lent slice.
#![tactic(auto)]

ghost use Rattle.std.specs.Prelude.{◌≡◌};
ghost use Rattle.lent.specs.Written.{written_at};

// Writes src into dst from the index at on; where it does not fit, nothing is written.
#[tactic(auto, unfolding(crate::specs::Written::written_at))]
pub fn write_at(src: &[u8], dst: &mut [u8], at: usize)
    ensures { dst.new ≡ written_at at src.now dst.old }
{
    if dst.len() < at || dst.len() - at < src.len() {
        return;
    }
    dst[at..at + src.len()].copy_from_slice(src);
}
