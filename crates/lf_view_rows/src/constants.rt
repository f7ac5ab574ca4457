//! Names and constants of the worked views.
ghost use Rattle.std.specs.Prelude.{◌≡◌, None, IfOk};
ghost use Rattle.lf_view_laws.specs.Worked as worked;

use lf_core::{ConstInfo, ConstKind, Detail, Expr, Level, Name, NoMemory};
use sqlite_items::Items;
use std::alloc::Global;

/// `foo`.
pub fn foo(alloc: Global) -> Result<Name, NoMemory>
    ensures { IfOk result (λ n. n ≡ worked.foo) }
{
    Name::one(alloc, "foo")
}

/// The child `foo.aux`.
pub fn foo_aux(alloc: Global) -> Result<Name, NoMemory>
    ensures { IfOk result (λ n. n ≡ worked.foo_ "aux") }
{
    foo(alloc)?.child(alloc, "aux")
}

/// The realizable name `foo.eq_1`.
pub fn foo_equation(alloc: Global) -> Result<Name, NoMemory>
    ensures { IfOk result (λ n. n ≡ worked.foo_ "eq_1") }
{
    foo(alloc)?.child(alloc, "eq_1")
}

/// A definition of type `Prop`, of which the value isn't known.
pub fn header(alloc: Global, name: Name) -> Result<ConstInfo, NoMemory>
    ensures { IfOk result (λ c. c ≡ worked.definition name None) }
{
    Ok(ConstInfo {
        name,
        kind: ConstKind::Def,
        levels: Items::new(alloc),
        ty: Expr::sort(alloc, Level::zero(alloc)?)?,
        value: None,
        height: 0,
        detail: Detail::Plain,
    })
}

/// The same with the value `Prop`.
pub fn whole(alloc: Global, name: Name) -> Result<ConstInfo, NoMemory>
    ensures { IfOk result (λ c. c ≡ worked.whole name) }
{
    let header = header(alloc, name)?;
    let value = Some(Expr::sort(alloc, Level::zero(alloc)?)?);
    Ok(ConstInfo { value, ..header })
}
