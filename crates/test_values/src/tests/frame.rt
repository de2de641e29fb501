// A frame whose names and table are at hand, so that a name without a slot is told and not looked up.

ghost use Rattle.std.specs.Prelude.{◌≡◌};

use contract_views::Items;
use script_check::finds;
use script_grammar::{Expr, Name, NameText};
use serial_meaning::Value;
use std::alloc::Global;
use std::test::Fail;
use strand_values::{Environment, EnvironmentPool, EvaluationError, Target};

// The names of its variables, each in its slot. Some differ in their lengths alone, and some in their last bytes.
pub(super) static NAMES: [&str; 14] = [
    "n",
    "early",
    "late",
    "a",
    "x",
    "abcdefg",
    "abcdefgh",
    "abcdefgi",
    "abcdefghi",
    "abcdefghj",
    "abcdefghijklmnopqrstuvwxyz01234",
    "abcdefghijklmnopqrstuvwxyz012345",
    "abcdefghijklmnopqrstuvwxyz012346",
    "bbcdefghijklmnopqrstuvwxyz012345",
];

// One of these names. It stands at the offset of its slot, and any other name where the table ends.
pub(super) fn name(text: &str) -> Name {
    let bytes = text.as_bytes();
    let slot = NAMES.iter().position(|other| *other == text);
    Name {
        bytes: NameText::of(&bytes[..bytes.len().min(32)]),
        at: slot.unwrap_or(NAMES.len()) as u32,
    }
}

// There is no variable of this name.
#[derive(Debug, Drop)]
struct Unknown;

#[derive(Drop)]
pub(super) struct Frame {
    environment: Environment,
    names: Items<NameText>,
    slots: Items<u16>,
    ghost same_names: { environment.names ≡ names },
}

impl Frame {
    /// No variable is there.
    pub fn new(alloc: Global) -> Result<Frame, Fail> {
        let mut names = Vec::new(alloc);
        let mut slots = Vec::new(alloc);
        for (slot, &text) in NAMES.iter().enumerate() {
            names.push(name(text).bytes)?;
            slots.push(slot as u16)?;
        }
        let names = Items(names);
        Ok(Frame {
            environment: Environment::bound(
                alloc,
                &names,
                &[],
                &[],
                &mut EnvironmentPool::new(alloc),
            )?,
            names,
            slots: Items(slots),
        })
    }

    pub fn set(&mut self, alloc: Global, x: &Name, value: Value) -> Result<(), Fail> {
        let slots = self.slots.as_slice();
        if !finds(alloc, slots, &self.names, &Expr::Var(x.copy()))? {
            return Err(Unknown)?;
        }
        self.environment.set_scalar(slots, x, value);
        Ok(())
    }

    pub fn set_array(&mut self, alloc: Global, x: &Name, length: u64) -> Result<(), Fail> {
        let slots = self.slots.as_slice();
        if !finds(alloc, slots, &self.names, &Expr::Var(x.copy()))? {
            return Err(Unknown)?;
        }
        self.environment.set_array(alloc, slots, x, length)?;
        Ok(())
    }

    /// Writes the item where the array has one.
    pub fn set_item(
        &mut self,
        alloc: Global,
        x: &Name,
        index: i64,
        value: i64,
    ) -> Result<(), Fail> {
        let slots = self.slots.as_slice();
        if !finds(alloc, slots, &self.names, &Expr::Var(x.copy()))? {
            return Err(Unknown)?;
        }
        if self.environment.item(slots, x, index).is_some() {
            self.environment
                .set_item(slots, x, index, &Value::Int(value));
        }
        Ok(())
    }

    pub fn item(&self, alloc: Global, x: &Name, index: i64) -> Result<Option<i64>, Fail> {
        let slots = self.slots.as_slice();
        if !finds(alloc, slots, &self.names, &Expr::Var(x.copy()))? {
            return Err(Unknown)?;
        }
        Ok(self.environment.item(slots, x, index))
    }

    /// The value of an expression, or the error.
    pub fn value(&self, alloc: Global, e: &Expr) -> Result<Result<Value, EvaluationError>, Fail> {
        let slots = self.slots.as_slice();
        if !finds(alloc, slots, &self.names, e)? {
            return Err(Unknown)?;
        }
        Ok(self.environment.value(slots, e))
    }

    /// Whether a condition holds.
    pub fn holds(&self, alloc: Global, e: &Expr) -> Result<bool, Fail> {
        let slots = self.slots.as_slice();
        if !finds(alloc, slots, &self.names, e)? {
            return Err(Unknown)?;
        }
        Ok(self.environment.holds(slots, e)?)
    }

    /// The error of an assignment, if there is one.
    pub fn assign(
        &mut self,
        alloc: Global,
        x: &Name,
        e: &Expr,
    ) -> Result<Option<EvaluationError>, Fail> {
        let slots = self.slots.as_slice();
        let known = finds(alloc, slots, &self.names, &Expr::Var(x.copy()))?;
        if !known || !finds(alloc, slots, &self.names, e)? {
            return Err(Unknown)?;
        }
        Ok(self.environment.assign(slots, x, e).err())
    }

    /// Whether an array has room for so many values.
    pub fn has_room(&self, alloc: Global, array: &Name, count: u64) -> Result<bool, Fail> {
        let slots = self.slots.as_slice();
        if !finds(alloc, slots, &self.names, &Expr::Var(array.copy()))? {
            return Err(Unknown)?;
        }
        Ok(self.environment.has_room(slots, Some(array), count))
    }

    /// Writes a loop's values into its target, if there is one.
    pub fn fill(
        &mut self,
        alloc: Global,
        array: Option<&Name>,
        values: &[Value],
    ) -> Result<(), Fail> {
        let slots = self.slots.as_slice();
        let Some(x) = array else {
            self.environment.fill(alloc, slots, None, values);
            return Ok(());
        };
        if !finds(alloc, slots, &self.names, &Expr::Var(x.copy()))? {
            return Err(Unknown)?;
        }
        self.environment
            .fill(alloc, slots, Some(&Target::of(x)), values);
        Ok(())
    }

    /// The values of two arguments, or the error.
    pub fn values(
        &self,
        alloc: Global,
        first: Expr,
        second: Expr,
    ) -> Result<Result<Items<Value>, EvaluationError>, Fail> {
        let slots = self.slots.as_slice();
        let known = finds(alloc, slots, &self.names, &first)?;
        if !known || !finds(alloc, slots, &self.names, &second)? {
            return Err(Unknown)?;
        }
        let mut args = Vec::with_capacity(alloc, 2)?;
        args.push(first)?;
        args.push(second)?;
        Ok(self.environment.values(alloc, slots, &args))
    }
}
