use search_restarts::Restarts;
use std::test::Fail;

// How many conflicts the next run has, if at most so many.
fn conflicts_of_run(restarts: &mut Restarts, most: u32) -> u32 {
    for count in 1..most {
        if restarts.is_over() {
            return count;
        }
    }
    most
}

// How many runs a guide at a place leads, if at most so many.
fn runs_of_turn(restarts: &mut Restarts, place: usize, most: u32) -> u32 {
    for count in 1..most {
        if restarts.ends_turn(place) {
            return count;
        }
    }
    most
}

#[test]
fn runs_grow_by_the_sequence(rt: HostRuntime) -> Result<(), Fail> {
    let mut restarts = Restarts::new();
    for units in [1, 1, 2, 1, 1, 2, 4, 1, 1, 2, 1, 1, 2, 4, 8] {
        assert!(rt; conflicts_of_run(&mut restarts, 1000) == 64 * units);
    }
    Ok(())
}

#[test]
fn the_second_guide_leads_longer(rt: HostRuntime) -> Result<(), Fail> {
    let mut restarts = Restarts::new();
    assert!(rt; runs_of_turn(&mut restarts, 0, 100) == 1);
    assert!(rt; runs_of_turn(&mut restarts, 1, 100) == 45);
    assert!(rt; runs_of_turn(&mut restarts, 2, 100) == 1);
    Ok(())
}
