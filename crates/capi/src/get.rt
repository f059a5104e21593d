// Runs read from bytes.
ghost use Rattle.std.specs.Prelude.{◌≡◌, ◌≤◌, length};
ghost use Rattle.capi.specs.Encoding.{run_from};

use positions::Configuration;
use run::Run;

// The configuration in the bytes of a run.
fn get_configuration(bytes: &[u8]) -> Configuration
    requires { 16 ≤ length bytes.now }
    ensures { result ≡ (run_from bytes.now).configuration }
{
    Configuration {
        state: records::bytes_at(bytes, 1),
        place: records::bytes_at(bytes, 7),
    }
}

// The run that bytes hold, one out of range if they are too few.
pub fn get_run(bytes: &[u8]) -> Run
    ensures { result ≡ run_from bytes.now }
{
    if bytes.len() < 16 {
        return Run {
            point: 255,
            configuration: Configuration {
                state: [0u8; 6],
                place: [0u8; 8],
            },
            chapter: 0,
        };
    }
    Run {
        point: bytes[0],
        configuration: get_configuration(bytes),
        chapter: bytes[15],
    }
}
