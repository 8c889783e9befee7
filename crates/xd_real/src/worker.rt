// This program as a worker that is a child.
ghost use Rattle.std.specs.Prelude.{◌≡◌, ℕ, List, [], ◌∷◌, Some, None, false, IfOk, OnOk, option_map, codes};
ghost use Rattle.std.specs.Process.{command_program, command_args, command_dir, command_var, clears_env, SameProgramAndArgs, SameEnv, SameOtherVars, SameDir};
ghost use Rattle.std.specs.Str.{encode_utf8_all};
ghost use Rattle.xd_real.specs.Worker.{var_set};

use std::alloc::{AllocError, Global};
use std::process::{Command, Stdio};
use xd_edge::{Env, Text};

/// This program as a worker, in a folder of its own where one is named, with these variables beside this program's. Its
/// standard error is the program's own.
pub fn worker_of(
    alloc: Global,
    program: &Text,
    chdir: &Option<Text>,
    env: &Env,
) -> Result<Command, AllocError>
    ensures program { IfOk result (λ c. command_program c ≡ encode_utf8_all program.now) }
    ensures words { IfOk result (λ c. command_args c ≡ codes "worker" ∷ []) }
    ensures folder { IfOk result (λ c. command_dir c ≡ option_map encode_utf8_all chdir.now) }
    ensures inherits { IfOk result (λ c. clears_env c ≡ false) }
    ensures vars { IfOk result (λ c. (name : List ℕ) →
        command_var c name ≡ var_set env.now name None) }
{
    let mut command = Command::new(alloc, program.as_str())?;
    command.arg("worker")?;
    set_folder(&mut command, chdir)?;
    set_vars(&mut command, &env.items)?;
    command.stdin(Stdio::piped());
    command.stdout(Stdio::piped());
    Ok(command)
}

fn set_folder(command: &mut Command, chdir: &Option<Text>) -> Result<(), AllocError>
    requires { command_dir command.old ≡ None }
    ensures folder { OnOk result (command_dir command.new ≡ option_map encode_utf8_all chdir.now) }
    ensures call { OnOk result (SameProgramAndArgs command.old command.new) }
    ensures env { OnOk result (SameEnv command.old command.new) }
{
    if let Some(folder) = chdir {
        command.current_dir(folder.as_str())?;
    }
    Ok(())
}

fn set_vars(command: &mut Command, pairs: &[(Text, Text)]) -> Result<(), AllocError>
    ensures vars { OnOk result ((name : List ℕ) →
        command_var command.new name ≡ var_set pairs.now name (command_var command.old name)) }
    ensures call { OnOk result (SameProgramAndArgs command.old command.new) }
    ensures folder { OnOk result (SameDir command.old command.new) }
    ensures clears { OnOk result (clears_env command.new ≡ clears_env command.old) }
{
    for (name, value) in pairs {
        set_var(command, name, value)?;
    }
    Ok(())
}

fn set_var(command: &mut Command, name: &Text, value: &Text) -> Result<(), AllocError>
    ensures set { OnOk result
        (command_var command.new (encode_utf8_all name.now) ≡ Some
        (Some (encode_utf8_all value.now))) }
    ensures others { OnOk result
        (SameOtherVars command.old command.new (encode_utf8_all name.now)) }
    ensures call { OnOk result (SameProgramAndArgs command.old command.new) }
    ensures folder { OnOk result (SameDir command.old command.new) }
    ensures clears { OnOk result (clears_env command.new ≡ clears_env command.old) }
{
    command.env(name.as_str(), value.as_str())?;
    Ok(())
}
