// What holds of the host by definitions alone. The function does nothing: its clauses are the laws.
ghost use Rattle.std.specs.Prelude.{◌≡◌, Some, None};
ghost use Rattle.js_host.specs.Natives.{asked_by, named_at};
ghost use Rattle.js_host.specs.declared.native.Builtin.TheVariants.{ConsoleLog};

use crate::CONSOLE_LOG;

/// The number is that of `console.log` in the table of natives, and it asks nothing.
pub fn console_log_is_in_the_table()
    ensures name { named_at CONSOLE_LOG ≡ Some ConsoleLog }
    ensures quiet { asked_by CONSOLE_LOG ≡ None }
{}
