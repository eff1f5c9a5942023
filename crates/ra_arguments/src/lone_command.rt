//! Arguments that are a command and nothing more.
ghost use Rattle.std.specs.Prelude.{◌≡◌, ◌↔◌, ◌∷◌, [], ℕ, List, IsTrue, map, string_bytes};

/// Returns whether the arguments are the program's name and this command. It does not allocate.
pub fn is_command_alone(arguments: &[String], command: &str) -> bool
    ensures { IsTrue result ↔ ((name : List ℕ) × (map string_bytes arguments.now ≡ name ∷ command.now ∷ [])) }
{
    match arguments {
        [_, argument] => argument.as_str() == command,
        _ => false,
    }
}
