use crate::print_history;
use iscc_header::{Kind, Unit64};
use reg_model::{Carried, Declared};
use std::test::Fail;

#[test]
fn a_history_without_rounds_has_its_declarations_and_its_end(rt: HostRuntime) -> Result<(), Fail> {
    let kind = Kind::new(0).ok_or("no kind")?;
    let mut carried = Carried::new(rt.alloc(), 8);
    carried.push(Declared {
        id: 5,
        unit: Unit64 { kind, body: 1 },
    })?;
    let text = print_history(rt.alloc(), &carried, &[])?;
    assert_eq!(rt;
        text.as_slice(),
        b"iscc-history 1\ncarry 5 ISCC:AAAQAAAAAAAAAAAB\nend 0 live 1\n".as_slice()
    );
    Ok(())
}
