//! What a TLP may be: 0,0,0 or a parameter of the build.
ghost use Rattle.std.specs.Prelude.{◌≡◌, ◌∷◌, [], length};
ghost use Rattle.points.specs.Types.{gateway};
ghost use Rattle.values.specs.Kinds.{tlp_of, says_number, valid_tlp, number_tlp};

use points::{Kind, Logical, Parameter, PointType, Tlp};

/// Whether a TLP is 0,0,0 or a parameter of the build.
#[tactic(auto, unfolding(crate::specs::Kinds::valid_tlp))]
pub fn tlp_ok(tlp: Tlp) -> bool
    ensures { result ≡ valid_tlp gateway (tlp.point.0 ∷ tlp.logical.0 ∷ tlp.parameter.0 ∷ []) }
{
    tlp == Tlp::NONE || points::locate(tlp).is_ok()
}

/// Whether values of a kind are numbers.
fn is_number(kind: Kind) -> bool
    ensures { result ≡ says_number kind }
{
    matches!(
        kind,
        Kind::Unsigned | Kind::Signed | Kind::Single | Kind::Double
    )
}

/// Whether a TLP is 0,0,0 or a parameter of the build that is a number.
#[tactic(auto, using(crate::proofs::Named::row_same), unfolding(crate::specs::Kinds::number_tlp))]
pub fn number_tlp_ok(tlp: Tlp) -> bool
    ensures { result ≡ number_tlp gateway (tlp.point.0 ∷ tlp.logical.0 ∷ tlp.parameter.0 ∷ []) }
{
    tlp == Tlp::NONE || points::locate(tlp).is_ok_and(|spot| is_number(points::kind_at(spot.row)))
}

/// The TLP that the three bytes of a value say.
pub fn tlp_of(value: &[u8]) -> Tlp
    requires { length value.now ≡ 3 }
    ensures { result ≡ tlp_of value.now }
{
    Tlp {
        point: PointType(value[0]),
        logical: Logical(value[1]),
        parameter: Parameter(value[2]),
    }
}
