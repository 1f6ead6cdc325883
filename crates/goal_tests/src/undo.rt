//! Goals that are tried: what is undone of them, and what stays.
ghost use Rattle.std.specs.Prelude.{◌≡◌, IfOk, OnOk};
ghost use Rattle.goal_tests.specs.Words.{Grew, GoesOn, KeepsGoals};

use crate::given::{Items, given, plain_trait};
use crate::tree::{NODE, implements};
use hir_facts::{Facts, GenericDefId, List, RawLang, TraitId, Ty, UintTy};
use infer_goals::GoalTable;
use infer_table::{InferenceTable, NoUnifier};
use std::alloc::{AllocError, Global};
use std::process::Abort;
use std::test::Fail;

/// The facts of one trait, that of types with a size.
fn facts(alloc: Global) -> Result<Facts, AllocError> {
    let mut traits = List::new(alloc);
    traits.push(plain_trait(alloc, "Sized", List::new(alloc))?)?;
    let mut lang = List::new(alloc);
    lang.push(RawLang::Sized(TraitId(0)))?;
    given(
        alloc,
        Items {
            types: List::new(alloc),
            traits,
            aliases: List::new(alloc),
            impls: List::new(alloc),
            lang,
        },
    )
}

/// Registers that a type has a size; a type of holes that the table didn't make is an error.
fn register(alloc: Global, goals: &mut GoalTable<'_>, ty: Ty) -> Result<(), AllocError>
    requires { KeepsGoals goals.old }
    ensures keeps { OnOk result (KeepsGoals goals.new) }
    ensures table { goals.new.table ≡ goals.old.table }
    ensures sources { goals.new.sources ≡ goals.old.sources }
{
    if !goals.table.has_made(&ty)? {
        return Err(AllocError);
    }
    goals.register_obligation(implements(alloc, ty)?, NODE)
}

/// Binds hole 0 to `u8`; that it wasn't made is an error.
fn bind(table: &mut InferenceTable) -> Result<(), AllocError>
    ensures { Grew table.old table.new }
{
    let hole = Ty::Var(0);
    let ty = Ty::Uint(UintTy::U8);
    if !table.has_made(&hole)? || !table.has_made(&ty)? {
        return Err(AllocError);
    }
    let _unifies = table.unify(&hole, &ty)?;
    Ok(())
}

/// Registers one goal more, binds hole 0, selects what can be selected, and notes a use and an entry.
fn go_on(alloc: Global, goals: &mut GoalTable<'_>) -> Result<(), AllocError>
    requires { KeepsGoals goals.old }
    ensures goes_on { OnOk result (GoesOn goals.old goals.new) }
    ensures keeps { OnOk result (KeepsGoals goals.new) }
{
    register(alloc, goals, Ty::Char)?;
    bind(&mut goals.table)?;
    goals.select_obligations_where_possible()?;
    goals.note_use(&Ty::Bool, &Ty::Char, NODE)?;
    goals.enter_hidden(&Ty::Bool, &Ty::Char)?;
    Ok(())
}

fn tries(
    alloc: Global,
    goals: &mut GoalTable<'_>,
    keeps: bool,
) -> Result<Result<(), NoUnifier>, AllocError>
    requires { KeepsGoals goals.old }
    ensures goes_on { OnOk result (GoesOn goals.old goals.new) }
    ensures keeps { OnOk result (KeepsGoals goals.new) }
{
    go_on(alloc, goals)?;
    Ok(if keeps { Ok(()) } else { Err(NoUnifier) })
}

fn commit(
    alloc: Global,
    goals: &mut GoalTable<'_>,
    keeps: bool,
) -> Result<Result<(), NoUnifier>, AllocError>
    requires { KeepsGoals goals.old }
    ensures { OnOk result (KeepsGoals goals.new) }
{
    goals.commit_if_ok(|goals| tries(alloc, goals, keeps))
}

/// Compares what hole 0 is, and how many goals are pending, were selected, have proofs, how many uses and entries there are.
fn check(
    rt: &impl Abort,
    goals: &GoalTable<'_>,
    hole: Ty,
    counts: [usize; 5],
) -> Result<(), AllocError>
    requires { KeepsGoals goals.now }
{
    let known = goals.table.resolve(&Ty::Var(0))?;
    assert!(rt; known.is_same(&hole));
    assert_eq!(rt; goals.pending()?.len(), counts[0]);
    assert_eq!(rt; goals.selected(), counts[1] as u64);
    assert_eq!(rt; goals.proofs()?.len(), counts[2]);
    assert_eq!(rt; goals.uses()?.len(), counts[3]);
    assert_eq!(rt; goals.projections()?.len(), counts[4]);
    Ok(())
}

/// A table with hole 0, for the goals of trait 0.
fn table_of<'a>(alloc: Global, facts: &'a Facts) -> Result<GoalTable<'a>, AllocError>
    ensures { IfOk result KeepsGoals }
{
    let mut goals = GoalTable::new(alloc, facts, GenericDefId::TraitId(TraitId(0)))?;
    let _hole = goals.table.next_ty_var()?;
    Ok(goals)
}

#[test]
fn undoes_if_not_ok(rt: HostRuntime) -> Result<(), Fail> {
    let alloc = rt.alloc();
    let facts = facts(alloc)?;
    let mut goals = table_of(alloc, &facts)?;
    register(alloc, &mut goals, Ty::Var(0))?;
    assert_eq!(rt; commit(alloc, &mut goals, false)?, Err(NoUnifier));
    check(&rt, &goals, Ty::Var(0), [1, 2, 0, 0, 0])?;
    assert_eq!(rt; commit(alloc, &mut goals, true)?, Ok(()));
    check(&rt, &goals, Ty::Uint(UintTy::U8), [0, 4, 2, 1, 1])?;
    Ok(())
}

#[test]
fn counts_what_is_undone(rt: HostRuntime) -> Result<(), Fail> {
    let alloc = rt.alloc();
    let facts = facts(alloc)?;
    let mut goals = table_of(alloc, &facts)?;
    register(alloc, &mut goals, Ty::Var(0))?;
    assert_eq!(rt; commit(alloc, &mut goals, false)?, Err(NoUnifier));
    assert_eq!(rt; commit(alloc, &mut goals, false)?, Err(NoUnifier));
    check(&rt, &goals, Ty::Var(0), [1, 4, 0, 0, 0])?;
    assert_eq!(rt; commit(alloc, &mut goals, true)?, Ok(()));
    check(&rt, &goals, Ty::Uint(UintTy::U8), [2, 4, 0, 1, 1])?;
    Ok(())
}
