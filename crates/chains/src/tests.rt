use crate::Chains;
use std::test::Fail;

// Chain 7 begins at entry 5, whose link leads to entry 8, no lower; entry 4 leads to 1 and entry 8 to 2, where chains end.
fn rising() -> Chains {
    let mut chains = Chains::new();
    chains.heads[7] = 6;
    chains.next[5] = 9;
    chains.next[4] = 2;
    chains.next[8] = 3;
    chains
}

// "A link that leads no lower than its own entry counts as one to the next lower entry": here to entry 4.
#[test]
fn all_of_a_chain(rt: HostRuntime) -> Result<(), Fail> {
    let chains = rising();
    let mut chain = chains.chain(7);
    assert_eq!(rt; chain.next(), Some(5));
    assert_eq!(rt; chain.next(), Some(4));
    assert_eq!(rt; chain.next(), Some(1));
    assert_eq!(rt; chain.next(), None);
    let mut before = chains.before(5);
    assert_eq!(rt; before.next(), Some(8));
    assert_eq!(rt; before.next(), Some(2));
    assert_eq!(rt; before.next(), None);
    Ok(())
}

// "A link that leads no lower than its own entry leads to none."
#[test]
fn as_long_as_links_fall(rt: HostRuntime) -> Result<(), Fail> {
    let chains = rising();
    let mut chain = chains.falling(7);
    assert_eq!(rt; chain.next(), Some(5));
    assert_eq!(rt; chain.next(), None);
    let mut before = chains.falling_before(5);
    assert_eq!(rt; before.next(), Some(8));
    assert_eq!(rt; before.next(), Some(2));
    assert_eq!(rt; before.next(), None);
    Ok(())
}
