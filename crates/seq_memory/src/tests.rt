use crate::{MemoryElement, State};
use seq_words::{Block, NoMemory};

#[test]
fn an_element_is_written_fails_and_is_repaired(rt: HostRuntime) -> Result<(), NoMemory> {
    let mut element = MemoryElement::new(rt.alloc(), 3, 2)?;
    assert!(rt; element.in_service());
    assert_eq!(rt; element.read_word(0), 0);

    let sevens = Block { bytes: [7; 32] };
    element.write_block(2, &sevens);
    element.write_word(1, 9);
    assert_eq!(rt; *element.read_block(2), sevens);
    assert_eq!(rt; *element.read_block(1), Block::zero());

    assert_eq!(rt; element.swap_if(1, 8, 5), Err(9));
    assert_eq!(rt; element.read_word(1), 9);
    assert_eq!(rt; element.swap_if(1, 9, 5), Ok(()));
    assert_eq!(rt; element.read_word(1), 5);

    element.fail();
    assert_eq!(rt; element.state, State::Down);
    element.repair();
    assert_eq!(rt; element.state, State::Stale);
    assert_eq!(rt; *element.read_block(2), Block::zero());
    assert_eq!(rt; element.read_word(1), 0);
    Ok(())
}
