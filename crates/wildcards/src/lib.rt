//! Names by patterns, and names by numbers.
//!
//! It promises which names a list of patterns selects (`select`: the places of all that fit, or the first pattern that fits none) and
//! which names a count makes of one (`expand_count`). It stands on `vd_outside`, whose texts it takes.
#![tactic(auto)]

mod fault;
mod numbered;
mod selection;

pub use fault::SelectFault;
pub use numbered::expand_count;
pub use selection::select;

#[cfg(test)]
mod tests {
    use super::*;
    use std::alloc::Global;
    use std::process::Abort;
    use vd_outside::Text;

    fn texts(rt: &impl Abort, alloc: Global, words: &[&str]) -> Vec<Text> {
        let mut list = Vec::new(alloc);
        for word in words {
            let text = Text::from_str(alloc, word).expect(rt, "memory");
            list.push(text).expect(rt, "memory");
        }
        list
    }

    #[test]
    fn patterns_select_places(rt: HostRuntime) {
        let alloc = rt.alloc();
        let names = texts(&rt, alloc, &["sd1", "sd2", "log1", "sd10"]);
        for (patterns, wanted) in [
            (["sd1", "sd1"].as_slice(), [0].as_slice()),
            (["*"].as_slice(), [0, 1, 2, 3].as_slice()),
            (["sd1*", "log1"].as_slice(), [0, 2, 3].as_slice()),
            (["log*", "sd2"].as_slice(), [1, 2].as_slice()),
        ] {
            let patterns = texts(&rt, alloc, patterns);
            assert!(rt; patterns.len() < 9 && names.len() < 9);
            let places = select(alloc, &patterns, &names).expect(&rt, "selected");
            assert_eq!(rt; places.as_slice(), wanted);
        }
        for (patterns, wanted) in [
            ([].as_slice(), 0),
            (["sd3"].as_slice(), 0),
            (["sd1", "SD2", "x*"].as_slice(), 1),
            (["sd1", "sd*", "sd100*"].as_slice(), 2),
        ] {
            let patterns = texts(&rt, alloc, patterns);
            assert!(rt; patterns.len() < 9 && names.len() < 9);
            let refused = select(alloc, &patterns, &names).expect_err(&rt, "nothing");
            assert_eq!(rt; refused, SelectFault::Nothing { pattern: wanted });
        }
    }

    #[test]
    fn counts_number_names(rt: HostRuntime) {
        let alloc = rt.alloc();
        let name = Text::from_str(alloc, "sd").expect(&rt, "memory");
        let names = expand_count(alloc, &name, 9, 3).expect(&rt, "memory");
        assert_eq!(rt; names.len(), 3);
        assert_eq!(rt; names[0].as_str(), "sd9");
        assert_eq!(rt; names[1].as_str(), "sd10");
        assert_eq!(rt; names[2].as_str(), "sd11");
        assert_eq!(rt;
            expand_count(alloc, &name, 100_000, 0)
                .expect(&rt, "memory")
                .len(),
            0
        );
    }
}
