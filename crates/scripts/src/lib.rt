// Whole scripts whose scan was computed by the definitions that the contracts of `scan` cite.
#![tactic(auto)]

ghost use Rattle.scripts.specs.Scripts.{WorkedScripts, scripts};
ghost use Rattle.std.specs.Prelude.{◌≡◌, length};

// How many scripts stand worked in the specs: the scan of each leaves what is written beside it.
pub fn worked_scripts() -> u8
    ensures stands { WorkedScripts }
    ensures count { result ≡ length scripts }
{
    9
}
