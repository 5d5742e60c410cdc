//! Where a program takes connections of this machine.
ghost use Rattle.std.specs.Prelude.{◌≡◌, ◌∷◌, []};
ghost use Rattle.std.specs.Net.Addr.{ipv4_octets};

use std::net::Ipv4Addr;

/// The address of this machine alone, with a port.
pub fn own_address(port: u16) -> (Ipv4Addr, u16)
    ensures address { ipv4_octets result.0 ≡ 127 ∷ 0 ∷ 0 ∷ 1 ∷ [] }
    ensures port { result.1 ≡ port }
{
    (Ipv4Addr::new(127, 0, 0, 1), port)
}
