//! That texts are read with ample memory.

use host_script::Act;
use script_text::{number_list, script};

#[test]
fn reads_replies(rt: HostRuntime) {
    let text = "return(1, -2)[16: 255, 17: 0], trap user7, throw tag3 (7, -1), return";
    match script(rt.alloc(), text) {
        Err(_) => assert!(rt; false),
        Ok(script) => {
            let replies = script.replies.as_slice();
            assert_eq!(rt; replies.len(), 4);
            assert!(rt;
                matches!(
                    &replies[2].act,
                    Act::Throw {
                        tag: 3,
                        p0: 7,
                        p1: u64::MAX
                    }
                )
            );
            assert!(rt; replies[0].writes.as_slice() == [(16, 255), (17, 0)].as_slice());
        }
    }
}

#[test]
fn reads_numbers(rt: HostRuntime) {
    match number_list(rt.alloc(), "5, -1, 0x10") {
        Err(_) => assert!(rt; false),
        Ok(numbers) => assert!(rt; numbers.as_slice() == [5, -1, 16].as_slice()),
    }
}
