// The version of the library, so that a program can tell that its header and its archive belong together.
ghost use Rattle.std.specs.Prelude.{◌≡◌};

// 0.3.0: ten thousand times the first number, a hundred times the second, and the third.
const VERSION: u64 = 300;

// The number of the version.
#[unsafe(no_mangle)]
pub extern "C" fn tockplover_version() -> u64
    ensures { result ≡ 300 }
{
    VERSION
}
