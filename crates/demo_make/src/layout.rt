//! Where functions and data stand.

ghost use Rattle.std.specs.Prelude.{◌≡◌, ◌<◌};
ghost use Rattle.demo_make.specs.Layout.{function_addr};

/// Where the code begins.
pub const CODE_ADDR: u32 = 0x10000;
/// Where the function that the further threads run begins.
pub const CHILD_ADDR: u32 = CODE_ADDR + 4 * 66;
/// Where f0 begins.
const FIRST_ADDR: u32 = CHILD_ADDR + 4 * 9;
/// The bytes of one of f0 to f31.
const FUNCTION_SIZE: u32 = 4 * 17;
/// Where the second segment begins.
pub const DATA_ADDR: u32 = 0x20000;
/// How many zeros it has.
pub const DATA_LEN: u32 = 0x10000;

/// Where one of f0 to f31 begins.
pub fn function_addr(k: u32) -> u32
    requires { k < 32 }
    ensures { result ≡ function_addr k }
{
    FIRST_ADDR + FUNCTION_SIZE * k
}
