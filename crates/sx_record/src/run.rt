//! Runs of bytes that are UTF-8 already.
ghost use Rattle.std.specs.Prelude.{◌≡◌, ◌++◌, OnOk};
ghost use Rattle.std.specs.Str.{IsUtf8};
ghost use Rattle.std.specs.String.{string_bytes};

use std::alloc::AllocError;

/// Appends bytes that are UTF-8. Nothing is checked when it runs.
pub fn put_run(line: &mut String, run: &[u8]) -> Result<(), AllocError>
    requires { IsUtf8 run.now }
    ensures { OnOk result (string_bytes line.new ≡ string_bytes line.old ++ run.now) }
{
    line.push_str(unsafe { str::from_utf8_unchecked(run) })
}
