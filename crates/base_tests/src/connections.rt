//! Listeners and doors, in memory and at a socket.

ghost use Rattle.std.specs.Prelude.{IfOk};
ghost use Rattle.doors.specs.MemoryDoor.{IsFresh};

use doors::{Door, Listener, MemoryConnection, MemoryDoor, MemoryListener, SocketListener};
use outside::{MemorySink, MemorySource, Source, Trouble, write_all};
use std::alloc::{AllocError, Global};
use std::test::Fail;

// A connection that is to give this text.
fn connection(alloc: Global, text: &str) -> Result<MemoryConnection, AllocError>
    ensures { IfOk result (λ c. IsFresh c) }
{
    Ok(MemoryConnection {
        input: MemorySource::new(alloc, text.as_bytes())?,
        output: MemorySink::new(alloc, 64)?,
    })
}

// What a door is to answer: a connection that gives this text, that none comes, or a fault.
enum Want {
    Gives(&'static str),
    Over,
    Fails,
}

// Reads a short input, writes it out again, and answers whether it was this text.
fn is_echoed(input: &mut MemorySource, output: &mut MemorySink, text: &str) -> bool {
    let mut piece = [0; 64];
    let Ok(size) = input.read(&mut piece) else {
        return false;
    };
    &piece[..size] == text.as_bytes() && write_all(output, &piece[..size]).is_ok()
}

// Whether a door answers so, call by call. Each connection is given back.
fn answers(door: &mut MemoryDoor, wants: &[Want]) -> bool {
    for want in wants {
        let is_right = match (door.accept(), want) {
            (Ok(Some((mut input, mut output))), Want::Gives(text)) => {
                let is_right = is_echoed(&mut input, &mut output, text);
                door.give_back(input, output);
                is_right
            }
            (Ok(None), Want::Over) => true,
            (Err(Trouble::Failed), Want::Fails) => true,
            _ => false,
        };
        if !is_right {
            return false;
        }
    }
    true
}

// Whether a door's connections took these texts and came back in this order.
fn came_back(door: &MemoryDoor, texts: &[&str]) -> bool {
    let back = door.back();
    back.len() == texts.len()
        && back.iter().zip(texts).all(|(connection, text)| connection.output.bytes()
            == text.as_bytes())
}

// A listener whose third call fails. Two connections come to its first door, whose second call fails, and one to its
// second.
fn two_doors(alloc: Global) -> Result<MemoryListener, AllocError> {
    let mut listener = MemoryListener::new(alloc);
    listener.add(0, connection(alloc, "one")?)?;
    listener.add(1, connection(alloc, "three")?)?;
    listener.add(0, connection(alloc, "two")?)?;
    listener.fail_door_at(0, 2)?;
    listener.fail_at(3)?;
    Ok(listener)
}

// Whether that listener's doors give these connections, and it takes them back, the second first.
fn hands_out_its_doors(mut listener: MemoryListener) -> Result<bool, Trouble> {
    listener.bind("here")?;
    let mut first = listener.door()?;
    if !matches!(listener.door(), Err(Trouble::Failed)) {
        return Ok(false);
    }
    let mut second = listener.door()?;
    let are_right = answers(
        &mut first,
        &[
            Want::Gives("one"),
            Want::Fails,
            Want::Gives("two"),
            Want::Over,
        ],
    ) && answers(&mut second, &[Want::Gives("three"), Want::Over]);
    listener.take_back(second);
    listener.take_back(first);
    let back = listener.back();
    Ok(
        are_right
            && back.len() == 2
            && came_back(&back[0], &["three"])
            && came_back(&back[1], &["one", "two"])
            && back[1].has_failed()
            && !back[0].has_failed(),
    )
}

#[test]
fn doors_in_memory_give_their_connections_in_order_and_come_back(
    rt: HostRuntime,
) -> Result<(), Fail> {
    let listener = two_doors(rt.alloc())?;
    assert!(rt; hands_out_its_doors(listener) == Ok(true));
    Ok(())
}

// Whether the first door of a new listener is over.
fn is_over_at_once(alloc: Global) -> Result<bool, Trouble> {
    let mut door = MemoryListener::new(alloc).door()?;
    Ok(answers(&mut door, &[Want::Over, Want::Over]))
}

#[test]
fn a_door_to_which_nothing_was_added_is_over(rt: HostRuntime) {
    assert!(rt; is_over_at_once(rt.alloc()) == Ok(true));
}

// Addresses that no socket can be bound to.
const BAD_ADDRESSES: &[&str] = &[
    "",
    "nowhere",
    "127.0.0.1",
    "127.0.0.1:",
    "127.0.0.1:65536",
    ":",
];

#[test]
fn a_socket_is_bound_at_an_address_alone(rt: HostRuntime) {
    let mut listener = SocketListener::new(&rt);
    for address in BAD_ADDRESSES {
        assert!(rt; listener.bind(address) == Err(Trouble::Failed));
    }
    assert!(rt; matches!(listener.door(), Err(Trouble::Failed)));
    assert!(rt; listener.bind("127.0.0.1:0") == Ok(()));
    assert!(rt; listener.port().is_some_and(|port| port > 0));
    assert!(rt; listener.door().is_ok());
}
