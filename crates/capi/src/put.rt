// Runs written as bytes.
ghost use Rattle.std.specs.Prelude.{◌≡◌, ◌++◌, ◌≤◌, length, drop};
ghost use Rattle.capi.specs.Encoding.{run_bytes};

use run::Run;

// Writes a run to the buffer's start.
pub fn put_run(run: Run, buffer: &mut [u8])
    requires { 16 ≤ length buffer.old }
    ensures { buffer.new ≡ run_bytes run ++ drop 16 buffer.old }
{
    buffer[0] = run.point;
    buffers::put(buffer, 1, &run.configuration.state);
    buffers::put(buffer, 7, &run.configuration.place);
    buffer[15] = run.chapter;
}
