ghost use Rattle.std.specs.Prelude.{◌≡◌, IfOk, IsErr, string_bytes};
ghost use Rattle.ch_given.specs.ConfigLines.{fault_line};

use ch_base::Memory;
use ch_config_text::ConfigFault;
use std::alloc::Global;

/// The line that says what is wrong with a configuration. For want of memory there is none.
pub fn fault_line(alloc: Global, fault: ConfigFault) -> Result<String, Memory>
    ensures line { IfOk result (λ line. string_bytes line ≡ fault_line fault) }
    ensures memory { fault ≡ ConfigFault.Memory → IsErr result }
{
    let line = match fault {
        ConfigFault::NotJson => String::from_str(alloc, "config not json\n")?,
        ConfigFault::Missing(field) => {
            let name = field.name();
            format!(in alloc; "config missing {name}\n")?
        }
        ConfigFault::Bad(field) => {
            let name = field.name();
            format!(in alloc; "config bad {name}\n")?
        }
        ConfigFault::Memory => return Err(Memory),
    };
    Ok(line)
}
