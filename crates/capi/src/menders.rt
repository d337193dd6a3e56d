// The mender of streams.
ghost use Rattle.std.specs.Prelude.{◌≡◌, length};
ghost use Rattle.answer.specs.Answer.{mapped, filled};
ghost use Rattle.c_mender.specs.Menders.{mended_of};
ghost use Rattle.mending.specs.Mender.{mending, told_of, bytes_of};

use c_mender::Mended;

// Writes the mended stream at the front of `out`: 14, 80, 12.
#[unsafe(no_mangle)]
pub extern "C" fn tockplover_mend(stream: &[u8], out: &mut [u8]) -> Mended
    ensures value { result ≡ mended_of (mapped told_of (mending stream.now (length out.old))) }
    ensures out_after { out.new ≡ filled (mapped bytes_of (mending stream.now (length out.old))) out.old }
{
    mender::mend(stream, out).into()
}
