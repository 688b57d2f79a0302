//! Names for tests.
ghost use Rattle.std.specs.Prelude.{◌≡◌, IsTrue};
ghost use Rattle.units_core.specs.Name.{is_name};

use units_core::Name;

pub fn named(text: &[u8]) -> Name
    requires { IsTrue (is_name text.now) }
    ensures { result ≡ text.now }
{
    match Name::read(text) {
        None => unreachable!(),
        Some(name) => name,
    }
}
