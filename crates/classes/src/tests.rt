use crate::{Labels, NAMES};

#[test]
fn pairs_give_names_their_least_for_a_label(rt: HostRuntime) {
    let outside = NAMES as u32;
    let mut labels = Labels::new();
    assert_eq!(rt;
        (labels.label_of(4), labels.label_of(outside)),
        (0, outside)
    );
    labels.label(&[(7, 5), (5, 3), (10, 9), (2, outside)]);
    for (name, least) in [(7, 3), (5, 3), (3, 3), (10, 9), (9, 9), (2, 2), (0, 0)] {
        assert_eq!(rt; labels.label_of(name), least, "of {name}");
    }
    assert!(rt; labels.all_same(&[(3, 7), (9, 10), (outside, outside)]));
    assert!(rt; !labels.all_same(&[(3, 7), (9, 7)]));
    assert!(rt; !labels.all_same(&[(2, outside)]));
}

#[test]
fn labels_say_nothing_of_an_earlier_list(rt: HostRuntime) {
    let mut labels = Labels::new();
    labels.label(&[(1, 0)]);
    let earlier = labels;
    labels.label(&[(2, 1)]);
    assert_eq!(rt; (labels.label_of(1), labels.label_of(2)), (1, 1));
    assert_eq!(rt; (earlier.label_of(1), earlier.label_of(2)), (0, 2));
}
