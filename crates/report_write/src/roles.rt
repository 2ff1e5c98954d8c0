ghost use Rattle.std.specs.Prelude.{◌≡◌};
ghost use Rattle.report_write.specs.Roles.{role_name};

use shx_outside::Role;

/// What a text is read for, in a word.
pub fn role_name(role: Role) -> &'static str
    ensures { result.now ≡ role_name role }
{
    match role {
        Role::Shapes => "shapes",
        Role::Data => "data",
        Role::Script => "script",
    }
}
