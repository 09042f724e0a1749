// The bodies of the calls of `Threaded`. A plain container and one under a rule have calls of the same names, but no
// trait that has them all, so a body stands here once for both.

macro_rules! steps_on {
    ($container:expr, $rt:expr, $visit:expr, $key:ident) => {{
        let mut entry = $container.begin_sync($rt);
        for _ in 0..MOST {
            let Some(here) = entry else {
                return true;
            };
            $visit.meet(*here.$key());
            entry = here.next_sync($rt);
        }
        false
    }};
}

macro_rules! removes_on {
    ($container:expr, $rt:expr, $visit:expr, $key:ident $(, $next:tt)?) => {{
        let mut entry = $container.begin_sync($rt);
        for _ in 0..MOST {
            let Some(here) = entry else {
                return true;
            };
            $visit.meet(*here.$key());
            entry = here.remove_and_sync($rt)$(.$next)?;
        }
        false
    }};
}

macro_rules! keeps_all {
    ($container:expr, $rt:expr, $visit:expr $(, $value:pat)?) => {{
        $container.retain_sync($rt, |key $(, $value)?| {
            $visit.meet(*key);
            true
        });
        true
    }};
}

macro_rules! takes_none {
    ($container:expr, $rt:expr, $visit:expr, $taken:expr $(, $value:pat)?) => {{
        let mut taken = $taken;
        let ended = $container.iter_mut_sync(
            $rt,
            |key $(, $value)?| {
                $visit.meet(*key);
                Verdict::Keep
            },
            &mut taken,
        );
        ended == Ok(true) && taken.is_empty()
    }};
}

macro_rules! asks_all {
    ($container:expr, $rt:expr, $visit:expr $(, $value:pat)?) => {{
        let found = $container.any_sync($rt, |key $(, $value)?| {
            $visit.meet(*key);
            false
        });
        found.is_none()
    }};
}

macro_rules! goes_over {
    ($container:expr, $rt:expr, $alloc:expr, $way:expr, $visit:expr) => {
        match $way {
            Way::Walk | Way::Snapshot => walk($rt, $container, $visit),
            Way::Keep => keep($rt, $container, $visit),
            Way::Take => take($rt, $alloc, $container, $visit),
            Way::Ask => ask($rt, $container, $visit),
            Way::Next => step_on($rt, $container, $visit),
            Way::Remove => remove_on($rt, $container, $visit),
            Way::Copy => match $container.copied($rt) {
                Some(copy) => walk($rt, &copy, $visit),
                None => false,
            },
        }
    };
}

macro_rules! goes_over_versions {
    ($index:expr, $rt:expr, $way:expr, $visit:expr) => {
        match $way {
            Way::Walk | Way::Take => walk($rt, $index, $visit),
            Way::Keep => keep($rt, $index, $visit),
            Way::Ask => ask($rt, $index, $visit),
            Way::Next => step_on($rt, $index, $visit),
            Way::Remove => remove_on($rt, $index, $visit),
            Way::Snapshot => snapshot($rt, $index, $visit),
            Way::Copy => match $index.copied($rt) {
                Some(copy) => walk($rt, &copy, $visit),
                None => false,
            },
        }
    };
}

macro_rules! snaps {
    ($index:expr, $rt:expr, $visit:expr) => {{
        let Ok(versions) = $index.iter($rt) else {
            return false;
        };
        for version in versions {
            $visit.meet(*version.key());
        }
        true
    }};
}

macro_rules! enters {
    ($entry:expr, $visit:expr, $key:ident) => {
        match $entry {
            Some(entry) => {
                $visit.meet(*entry.$key());
                true
            }
            None => false,
        }
    };
}

macro_rules! looks {
    ($container:expr, $rt:expr, $alloc:expr, $look:expr) => {
        match $look {
            Look::Contains => $container.contains_sync($rt, &1),
            Look::Walk => $container.go_over($rt, $alloc, Way::Walk, &mut Passing),
            Look::Count => $container.len($rt) == 2,
            Look::Empty => !$container.is_empty($rt),
            Look::Compare => $container.eq_sync($rt, $container),
            Look::Bucket => $container.bucket_index($rt, &1) == 0,
            Look::Room => $container.has_room($rt, &1),
            Look::Read | Look::Peek | Look::PeekWith | Look::Snapshot => {
                $container.at_read($rt, 1, &mut Passing)
            }
        }
    };
}

macro_rules! looks_at_versions {
    ($index:expr, $rt:expr, $alloc:expr, $look:expr) => {
        match $look {
            Look::Read | Look::Room => $index.at_read($rt, 1, &mut Passing),
            Look::Contains => $index.contains($rt, &1),
            Look::Walk => $index.go_over($rt, $alloc, Way::Walk, &mut Passing),
            Look::Count => $index.len($rt) == 2,
            Look::Empty => !$index.is_empty($rt),
            Look::Compare => $index.eq_sync($rt, $index),
            Look::Bucket => $index.bucket_index($rt, &1) == 0,
            Look::Peek => matches!($index.peek($rt, &1), Ok(Some(_))),
            Look::PeekWith => $index.peek_with($rt, &1, |_, v| *v) == Some(1),
            Look::Snapshot => $index.go_over($rt, $alloc, Way::Snapshot, &mut Passing),
        }
    };
}

macro_rules! looks_in_cache {
    ($cache:expr, $rt:expr, $alloc:expr, $look:expr) => {
        match $look {
            Look::Contains => $cache.contains_sync($rt, &1),
            Look::Walk => $cache.go_over($rt, $alloc, Way::Walk, &mut Passing),
            Look::Count => $cache.len($rt) == 2,
            Look::Empty => !$cache.is_empty($rt),
            Look::Compare => $cache.eq_sync($rt, $cache),
            _ => $cache.at_read($rt, 1, &mut Passing),
        }
    };
}

macro_rules! reserves_and_drops {
    ($container:expr, $rt:expr, $slots:expr, $key:expr) => {{
        let before = $container.bucket_index($rt, &$key);
        match $container.reserve($rt, $slots) {
            Some(_held) => Some((before, $container.bucket_index($rt, &$key))),
            None => None,
        }
    }};
}

pub(crate) use asks_all;
pub(crate) use enters;
pub(crate) use goes_over;
pub(crate) use goes_over_versions;
pub(crate) use keeps_all;
pub(crate) use looks;
pub(crate) use looks_at_versions;
pub(crate) use looks_in_cache;
pub(crate) use removes_on;
pub(crate) use reserves_and_drops;
pub(crate) use snaps;
pub(crate) use steps_on;
pub(crate) use takes_none;
