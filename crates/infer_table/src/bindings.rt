//! Holes, and what they are bound to.
ghost use Rattle.std.specs.Prelude.{◌≡◌, ◌↔◌, IsTrue, ◌⊎◌, ◌-◌, ◌<◌, None, length, take, OnOk, OnErr, IfOk};
ghost use Rattle.std.specs.Option.{option_copied};
ghost use Rattle.infer_table.specs.Own.{IsOf, hole_kind, IsIntHole, log_of, Triangular, bound_hole, found_binding, no_bindings, with_hole, with_binding, MayBind, AllOf, IsTypeHole};
ghost use Rattle.infer_table.specs.Words.{hole_number};

use crate::binding::Binding;
use hir_types::{Const, Hole, HoleKind, Ty};
use std::alloc::{AllocError, Global};
use std::marker::Model;

/// A hole that was made.
#[derive(Clone, Copy, Debug)]
struct Variable {
    kind: HoleKind,
    /// Where in the log its binding stands.
    place: Option<usize>,
    /// At most how many bindings lead from another hole to this one.
    height: u8,
}

/// The holes that were made, and what they are bound to, the earliest binding first. Contracts see
/// the kinds of the holes and the bindings.
#[derive(Drop)]
pub struct Bindings {
    variables: Vec<Variable>,
    log: Vec<Binding>,
}

impl Model for Bindings {
    ghost use Rattle.infer_table.specs.Bindings.{Substitution, kinds_of, IsKept};
    ghost use Rattle.hir_types.specs.contracts.ty.Ty as ty;
    ghost use Rattle.std.specs.Coded.{codes};

    ghost Value = { Substitution };

    ghost coded = { Prim.hlevel (codes, ty.the_row.coded) };

    ghost view = { λ a. record { kinds = kinds_of a.variables.items; log = a.log.items } };

    ghost invariant = { λ a. IsKept a.variables.items a.log.items };
}

impl Binding {
    /// The hole that is bound.
    pub fn hole(&self) -> Hole
        ensures { result ≡ bound_hole self.now }
    {
        match self {
            Binding::Ty { hole, .. } => Hole::Ty(*hole),
            Binding::Int { hole, .. } => Hole::Int(*hole),
            Binding::Const { hole, .. } => Hole::Const(*hole),
        }
    }

    /// The hole that it is bound to, where it is one.
    fn target(&self) -> Option<Hole> {
        match self {
            Binding::Ty { ty, .. } | Binding::Int { ty, .. } => match ty {
                Ty::Var(number) => Some(Hole::Ty(*number)),
                Ty::IntVar(number) => Some(Hole::Int(*number)),
                _ => None,
            },
            Binding::Const { value, .. } => match value {
                Const::Var(number) => Some(Hole::Const(*number)),
                _ => None,
            },
        }
    }
}

/// A hole's number.
fn number_of(hole: Hole) -> usize
    ensures { result ≡ hole_number hole }
{
    match hole {
        Hole::Ty(number) | Hole::Int(number) | Hole::Const(number) => number,
    }
}

/// What a hole may stand for.
fn kind_of(hole: Hole) -> HoleKind
    ensures { result ≡ hole_kind hole }
{
    match hole {
        Hole::Ty(_) => HoleKind::Ty,
        Hole::Int(_) => HoleKind::Int,
        Hole::Const(_) => HoleKind::Const,
    }
}

fn same_kind(kind: HoleKind, other: HoleKind) -> bool
    ensures { IsTrue result ↔ kind ≡ other }
{
    kind == other
}

impl Bindings {
    /// No holes.
    pub fn new(alloc: Global) -> Bindings
        ensures { result ≡ no_bindings }
    {
        Bindings {
            variables: Vec::new(alloc),
            log: Vec::new(alloc),
        }
    }

    /// How many holes were made.
    pub fn hole_count(&self) -> usize
        ensures { result ≡ length self.now.kinds }
    {
        self.variables.len()
    }

    /// How many holes are bound.
    pub fn bound_count(&self) -> usize
        ensures count { result ≡ length self.now.log }
        ensures made { AllOf self.now.kinds self.now.log }
    {
        self.log.len()
    }

    /// The bindings, the earliest first. They lead round in no cycle, and name no hole that was not
    /// made.
    pub fn log(&self) -> &[Binding]
        ensures bindings { result.now ≡ self.now.log }
        ensures acyclic { Triangular (log_of self.now.log) }
        ensures made { AllOf self.now.kinds self.now.log }
    {
        self.log.as_slice()
    }

    /// Makes an open hole, and answers its number.
    pub fn new_hole(&mut self, kind: HoleKind) -> Result<usize, AllocError>
        ensures number { IfOk result (λ number. number ≡ length self.old.kinds) }
        ensures made { OnOk result (self.new ≡ with_hole self.old kind) }
        ensures err { OnErr result (self.new ≡ self.old) }
    {
        let number = self.variables.len();
        self.variables.push(Variable {
            kind,
            place: None,
            height: 0,
        })?;
        Ok(number)
    }

    /// Whether a hole was made.
    pub fn is_made(&self, hole: Hole) -> bool
        ensures { IsTrue result ↔ IsOf self.now.kinds hole }
    {
        match self.variables.get(number_of(hole)) {
            Some(variable) => same_kind(variable.kind, kind_of(hole)),
            None => false,
        }
    }

    /// The binding of a hole, or `None` where it is open.
    pub fn bound(&self, hole: Hole) -> Option<&Binding>
        ensures { option_copied result ≡ found_binding self.now.log hole }
    {
        let variable = self.variables.get(number_of(hole))?;
        if !same_kind(variable.kind, kind_of(hole)) {
            return None;
        }
        self.log.get(variable.place?)
    }

    /// At most how many bindings lead to a hole.
    fn height(&self, hole: Hole) -> u8 {
        match self.variables.get(number_of(hole)) {
            Some(variable) => variable.height,
            None => 0,
        }
    }

    /// Raises the height of a hole to at least `height`.
    fn raise(&mut self, hole: Hole, height: u8)
        ensures { self.new ≡ self.old }
    {
        let number = number_of(hole);
        if number < self.variables.len() {
            if self.variables[number].height < height {
                self.variables[number].height = height;
            }
        }
    }

    /// Which of two open holes is to be bound, and to which: an integer hole is never bound to a
    /// type hole, and else chains of bindings stay short.
    pub fn meet(&self, x: Hole, y: Hole) -> (Hole, Hole)
        ensures both { (result ≡ (x, y)) ⊎ (result ≡ (y, x)) }
        ensures kind_kept { IsTypeHole x → IsTypeHole y → IsIntHole result.0 → IsIntHole result.1 }
    {
        match (x, y) {
            (Hole::Ty(_), Hole::Int(_)) => (x, y),
            (Hole::Int(_), Hole::Ty(_)) => (y, x),
            _ => {
                let left = self.height(x);
                let right = self.height(y);
                if left < right || (left == right && number_of(x) > number_of(y)) {
                    (x, y)
                } else {
                    (y, x)
                }
            }
        }
    }

    /// Binds an open hole.
    pub fn bind(&mut self, binding: Binding) -> Result<(), AllocError>
        requires { MayBind self.old binding }
        ensures bound { OnOk result (self.new ≡ with_binding self.old binding) }
        ensures err { OnErr result (self.new ≡ self.old) }
    {
        let hole = binding.hole();
        let target = binding.target();
        let height = self.height(hole).saturating_add(1);
        self.add(binding)?;
        if let Some(target) = target {
            self.raise(target, height);
        }
        Ok(())
    }

    /// Binds an open hole, with no change of heights.
    fn add(&mut self, binding: Binding) -> Result<(), AllocError>
        requires { MayBind self.old binding }
        ensures bound { OnOk result (self.new ≡ with_binding self.old binding) }
        ensures err { OnErr result (self.new ≡ self.old) }
    {
        let number = number_of(binding.hole());
        let place = self.log.len();
        self.log.push(binding)?;
        self.variables[number].place = Some(place);
        Ok(())
    }

    /// Forgets the last binding.
    fn undo(&mut self)
        requires { 0 < length self.old.log }
        ensures kinds { self.new.kinds ≡ self.old.kinds }
        ensures log { self.new.log ≡ take (length self.old.log - 1) self.old.log }
    {
        let place = self.log.len() - 1;
        let number = number_of(self.log[place].hole());
        self.variables[number].place = None;
        self.log.truncate(place);
    }

    /// Forgets each binding but the first ones.
    pub fn truncate(&mut self, count: usize)
        ensures kinds { self.new.kinds ≡ self.old.kinds }
        ensures log { self.new.log ≡ take count self.old.log }
    {
        'undo: while self.bound_count() > count {
            self.undo();
        }
    }

    /// Forgets each hole but the first ones. No binding may name one that is forgotten.
    pub fn forget(&mut self, count: usize)
        requires { AllOf (take count self.old.kinds) self.old.log }
        ensures kinds { self.new.kinds ≡ take count self.old.kinds }
        ensures log { self.new.log ≡ self.old.log }
    {
        self.variables.truncate(count);
    }
}
