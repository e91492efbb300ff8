//! The documents of the input: staff and their badges, in entities of eight rows, with two rules and a copy.

use currency_base::NoMemory;
use currency_edge::SteadyShelf;
use std::alloc::Global;

/// How many rows an entity has.
const ENTITY: u32 = 8;

/// The specification. Of two rows of a person the one with the lower salary is older, and an older salary
/// goes with an older grade. Badges are copied from staff records.
const SPECIFICATION: &str =
    "relation Staff from \"staff.csv\" row id entity who (salary: int, grade: int);
relation Badge from \"badge.csv\" row id entity who (grade: int);
rule raise on Staff (s, t): if s.salary < t.salary then s before t in salary;
rule follow on Staff (s, t): if s before t in salary then s before t in grade;
copy printed into Badge (grade) from Staff (grade) using \"printed.csv\";
";

/// The specification, and the tables of so many rows in all, half of them staff records and half badges.
pub fn documents(alloc: Global, rows: u32) -> Result<SteadyShelf, NoMemory> {
    let half = rows / 2;
    let mut shelf = SteadyShelf::new(alloc);
    shelf.put("s", SPECIFICATION.as_bytes())?;
    shelf.put("staff.csv", staff(alloc, half)?.as_bytes())?;
    shelf.put("badge.csv", badges(alloc, half)?.as_bytes())?;
    shelf.put("printed.csv", printed(alloc, half)?.as_bytes())?;
    Ok(shelf)
}

// Staff records: the salaries of an entity are eight different ones, in another order than the records.
fn staff(alloc: Global, rows: u32) -> Result<String, NoMemory> {
    let mut text = String::from_str(alloc, "id,who,salary,grade\n")?;
    for row in 0..rows {
        let salary = row % ENTITY * 5 % ENTITY;
        let line = format!(in alloc; "s{},p{},{},{}\n", row, row / ENTITY, salary, row % 3)?;
        text.push_str(line.as_str())?;
    }
    Ok(text)
}

// Badges, each with the grade of the staff record of its number.
fn badges(alloc: Global, rows: u32) -> Result<String, NoMemory> {
    let mut text = String::from_str(alloc, "id,who,grade\n")?;
    for row in 0..rows {
        let line = format!(in alloc; "b{},c{},{}\n", row, row / ENTITY, row % 3)?;
        text.push_str(line.as_str())?;
    }
    Ok(text)
}

// Of each badge, that it was copied from the staff record of its number.
fn printed(alloc: Global, rows: u32) -> Result<String, NoMemory> {
    let mut text = String::from_str(alloc, "target,source\n")?;
    for row in 0..rows {
        let line = format!(in alloc; "b{},s{}\n", row, row)?;
        text.push_str(line.as_str())?;
    }
    Ok(text)
}
