ghost use Rattle.std.specs.Prelude.{◌≡◌, ◌≤◌, length, option_map};
ghost use Rattle.denial_rules.specs.Instances.{atom_pair, comparison_holds, concluded, instance_of, operand_value, premises_of, values_hold};

use crate::{Conclusion, MOST_PREDICATES, Operand, OrderAtom, Predicate, Premises, Rule};
use currency_base::{Pair, Row, RowId, Rows, Value};
use std::alloc::Global;

/// What a rule says of rows for which its comparisons hold: where each premise holds, the conclusion
/// does. With no conclusion the premises do not all hold.
#[derive(Drop)]
pub struct RuleInstance {
    pub premises: Premises,
    pub conclusion: Option<Pair>,
}

impl Operand {
    /// The value of the operand for rows that are taken for the variables. There is none where the
    /// variable has no row, or the row no value of the attribute.
    pub fn value<'a>(&'a self, table: &'a [Row], rows: &[RowId]) -> Option<&'a Value>
        ensures { option_map (λ v. v.now) result ≡ operand_value table.now rows.now self.now }
    {
        match self {
            Operand::Field { var, attr } => {
                let row = rows.get(*var as usize)?;
                let row = table.get(row.0 as usize)?;
                row.values.as_slice().get(attr.0 as usize)
            }
            Operand::Constant(value) => Some(value),
        }
    }
}

impl OrderAtom {
    /// The pair that the atom says of rows that are taken for the variables, unless it has one row
    /// twice.
    fn pair(&self, rows: &[RowId]) -> Option<Pair>
        ensures { result ≡ atom_pair rows.now self.now }
    {
        let earlier = *rows.get(self.earlier as usize)?;
        let later = *rows.get(self.later as usize)?;
        if earlier == later {
            return None;
        }
        Some(Pair {
            attr: self.attr,
            earlier,
            later,
        })
    }
}

impl Predicate {
    /// Does the predicate hold, if it is a comparison? Where a value is missing it does not. Takes no
    /// memory.
    pub fn comparison_holds(&self, table: &[Row], rows: &[RowId]) -> bool
        ensures { result ≡ comparison_holds table.now rows.now self.now }
    {
        match self {
            Predicate::Order(_) => true,
            Predicate::Compare { left, cmp, right } => {
                match (left.value(table, rows), right.value(table, rows)) {
                    (Some(a), Some(b)) => a.test(*cmp, b),
                    _ => false,
                }
            }
        }
    }
}

impl Rule {
    /// Do all comparisons of the rule hold for these rows, one per variable? Takes no memory.
    pub fn values_hold(&self, table: &Rows, rows: &[RowId]) -> bool
        ensures { result ≡ values_hold self.now table.now rows.now }
    {
        let table = table.as_slice();
        self.predicates
            .as_slice()
            .iter()
            .all(|predicate| predicate.comparison_holds(table, rows))
    }

    /// What the rule says of these rows, one per variable. There is nothing where a comparison fails, or
    /// an order predicate has one row twice. Takes no memory.
    pub fn instance(&self, alloc: Global, table: &Rows, rows: &[RowId]) -> Option<RuleInstance>
        requires { length self.now.predicates ≤ MOST_PREDICATES }
        ensures { result ≡ instance_of self.now table.now rows.now }
    {
        if !self.values_hold(table, rows) {
            return None;
        }
        let premises = premises_of(alloc, self.predicates.as_slice(), rows)?;
        Some(RuleInstance {
            premises,
            conclusion: self.conclusion.pair(rows),
        })
    }
}

impl Conclusion {
    /// The pair that is concluded of these rows, if there is one.
    fn pair(&self, rows: &[RowId]) -> Option<Pair>
        ensures { result ≡ concluded rows.now self.now }
    {
        match self {
            Conclusion::Never => None,
            Conclusion::Order(atom) => atom.pair(rows),
        }
    }
}

/// The pairs that the order predicates say of these rows, unless one of them has one row twice.
fn premises_of(alloc: Global, predicates: &[Predicate], rows: &[RowId]) -> Option<Premises>
    requires { length predicates.now ≤ MOST_PREDICATES }
    ensures { result ≡ premises_of rows.now predicates.now }
{
    let mut premises = Premises::new(alloc);
    for predicate in predicates {
        if let Predicate::Order(atom) = predicate {
            let pair = atom.pair(rows)?;
            let Ok(()) = premises.push(pair) else {
                unreachable!()
            };
        }
    }
    Some(premises)
}
