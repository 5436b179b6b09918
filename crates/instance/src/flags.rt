// A flag for each number that a slope can have.
ghost use Rattle.std.specs.Prelude.{◌≡◌, ◌<◌, set};
ghost use Rattle.instance.specs.Columns.{slope_places};
ghost use Rattle.instance.specs.Flags.{clear_at};

pub const SLOPES: usize = 256;

// Whether a slope's flag is clear.
pub fn is_clear(flags: &[u8; SLOPES], slope: u16) -> bool
    requires { slope < slope_places }
    ensures { result ≡ clear_at flags.now slope }
{
    flags[slope as usize] == 0
}

// Sets it.
pub fn set_flag(flags: &mut [u8; SLOPES], slope: u16)
    requires { slope < slope_places }
    ensures { flags.new ≡ set flags.old slope 1 }
{
    flags[slope as usize] = 1;
}
