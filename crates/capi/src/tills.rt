// The till profile.
ghost use Rattle.c_till.specs.Tills.{Told};

use c_till::Profile;

// Judges an invoice by the rules of the till profile: 30 to 40.
#[unsafe(no_mangle)]
pub extern "C" fn tockplover_till_profile(text: &[u8]) -> Profile
    ensures { Told text.now result }
{
    till::judge(text).into()
}
