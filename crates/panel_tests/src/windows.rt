// Windows, on windows too, and lent panels.
use crate::{at, outside, reads, rectangle, size, write};
use panel::{ERASED, Lent, ListPanel, Panel, Window};

#[test]
fn rectangles_end_inside(rt: HostRuntime) {
    assert!(rt; rectangle(1, 2, 2, 4).is_inside(size(2, 5)));
    assert!(rt; !rectangle(1, 2, 2, 5).is_inside(size(2, 5)));
    assert!(rt; !rectangle(2, 1, 2, 5).is_inside(size(2, 5)));
    assert!(rt; !rectangle(0, 1, 1, 1).is_inside(size(2, 5)));
    assert!(rt; !rectangle(1, 1, 0, 3).is_inside(size(2, 5)));
    assert!(rt; !rectangle(65535, 65535, 65535, 65535).is_inside(size(2, 5)));
}

#[test]
fn others_show_all_of_the_panel(rt: HostRuntime) {
    let mut cells = [ERASED; 10];
    assert!(rt;
        Window::new(
            ListPanel::new(&mut cells, size(2, 5)),
            rectangle(1, 2, 2, 4)
        )
        .size()
            == size(2, 4)
    );
    assert!(rt;
        Window::new(
            ListPanel::new(&mut cells, size(2, 5)),
            rectangle(1, 2, 2, 5)
        )
        .size()
            == size(2, 5)
    );
    assert!(rt;
        Window::new(
            ListPanel::new(&mut cells, size(2, 5)),
            rectangle(1, 1, 0, 3)
        )
        .size()
            == size(2, 5)
    );
    assert!(rt;
        Window::new(
            ListPanel::new(&mut cells, size(3, 5)),
            rectangle(1, 1, 1, 1)
        )
        .size()
            == size(0, 0)
    );
}

#[test]
fn a_run_in_a_window_is_no_run_below(rt: HostRuntime) {
    let mut cells = [ERASED; 15];
    let mut p = ListPanel::new(&mut cells, size(3, 5));
    write(&mut p, b"ABCDEFGHIJKLMNO");
    let mut w = Window::new(p, rectangle(1, 2, 3, 3));
    assert!(rt; reads(&w, b"BCDGHILMN"));
    assert!(rt; w.erase(at(1, 3), 3).is_ok());
    assert!(rt; reads(&w, b"BC...ILMN"));
    assert!(rt; w.erase(at(3, 2), 3) == outside(3, 2));
    assert!(rt; w.set(at(3, 3), ERASED).is_ok());
    assert!(rt; w.set(at(3, 4), ERASED) == outside(3, 4));
    let below = w.into_below();
    assert!(rt; reads(&below, b"ABC.EF..IJKLM.O"));
}

#[test]
fn windows_stand_on_windows_and_on_lent_panels(rt: HostRuntime) {
    let mut cells = [ERASED; 15];
    let mut p = ListPanel::new(&mut cells, size(3, 5));
    write(&mut p, b"ABCDEFGHIJKLMNO");
    {
        let w = Window::new(Lent::new(&mut p), rectangle(2, 1, 2, 5));
        let mut v = Window::new(w, rectangle(1, 4, 2, 2));
        assert!(rt; reads(&v, b"IJNO"));
        assert!(rt; v.erase(at(1, 2), 2).is_ok());
    }
    assert!(rt; reads(&p, b"ABCDEFGHI.KLM.O"));
}
