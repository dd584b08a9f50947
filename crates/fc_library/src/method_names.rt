ghost use Rattle.std.specs.Prelude.{IfOk, IfErr};
ghost use Rattle.fc_library.specs.Methods.{IsMethodOf, IsMethodRefused};

use crate::call_refusals::CallRefusal;
use fc_methods::{BoundKind, Budget, Expansion, HomeRule, Method, Strategy, Weight};

/// How a board is searched, as other programs tell it.
#[repr(C)]
#[derive(Clone, Copy, Debug, PartialEq, Eq)]
pub struct MethodName {
    /// The home rule, by which cards are sent home at once: 0 to 2.
    pub rule: u8,
    /// The kind of bound: 0 is the plain one, 1 the clearing one.
    pub bound: u8,
    /// How many tenths as much as a cost a bound counts: 10 to 100.
    pub tenths: u8,
    /// Which children of a position are stored: 0 all of them, 1 those that are as good as the best one that is open.
    pub expansion: u8,
    /// How many classes of positions may be stored: 1 to 4,000,000.
    pub budget: u32,
}

/// The method of this name.
///
/// # Errors
/// In this order: `Rule`, `Bound`, `Weight`, `Expansion`, `Budget`, for a number that is none.
pub fn method_of(name: MethodName) -> Result<Method, CallRefusal>
    ensures value { IfOk result (IsMethodOf name) }
    ensures refused { IfErr result (IsMethodRefused name) }
{
    let rule = HomeRule::new(name.rule).ok_or(CallRefusal::Rule)?;
    let bound = match name.bound {
        0 => BoundKind::Plain,
        1 => BoundKind::Clearing,
        _ => return Err(CallRefusal::Bound),
    };
    let weight = Weight::of_tenths(name.tenths).ok_or(CallRefusal::Weight)?;
    let expansion = match name.expansion {
        0 => Expansion::Full,
        1 => Expansion::Partial,
        _ => return Err(CallRefusal::Expansion),
    };
    let budget = Budget::new(name.budget).ok_or(CallRefusal::Budget)?;
    Ok(Method {
        rule,
        bound,
        strategy: Strategy {
            weight,
            expansion,
            budget: budget.into(),
        },
    })
}
