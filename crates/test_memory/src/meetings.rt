// Reports of calls that were refused, for each kind and form.
use crate::makers::Of;
use std::io::Print;
use test_kit::refusals::Refusal;

/// Reports that a constructor was refused.
pub(crate) fn constructor<R: Print>(rt: &R, refusal: &mut Refusal, of: Of) {
    match of {
        Of::Map => refusal.meet(rt, "a constructor of a map"),
        Of::Set => refusal.meet(rt, "a constructor of a set"),
        Of::Index => refusal.meet(rt, "a constructor of an index"),
        Of::Cache => refusal.meet(rt, "a constructor of a cache"),
        Of::SharedMap => refusal.meet(rt, "a constructor of a shared map"),
        Of::SharedSet => refusal.meet(rt, "a constructor of a shared set"),
        Of::SharedIndex => refusal.meet(rt, "a constructor of a shared index"),
        Of::SharedCache => refusal.meet(rt, "a constructor of a shared cache"),
        Of::RuledMap => refusal.meet(rt, "a constructor of a ruled map"),
        Of::RuledSet => refusal.meet(rt, "a constructor of a ruled set"),
        Of::RuledIndex => refusal.meet(rt, "a constructor of a ruled index"),
        Of::RuledCache => refusal.meet(rt, "a constructor of a ruled cache"),
    }
}

/// Reports that a container of items was refused.
pub(crate) fn items<R: Print>(rt: &R, refusal: &mut Refusal, of: Of) {
    match of {
        Of::Map => refusal.meet(rt, "a map of items"),
        Of::Set => refusal.meet(rt, "a set of items"),
        Of::Index => refusal.meet(rt, "an index of items"),
        Of::Cache => refusal.meet(rt, "a cache of items"),
        Of::SharedMap => refusal.meet(rt, "a shared map of items"),
        Of::SharedSet => refusal.meet(rt, "a shared set of items"),
        Of::SharedIndex => refusal.meet(rt, "a shared index of items"),
        Of::SharedCache => refusal.meet(rt, "a shared cache of items"),
        Of::RuledMap => refusal.meet(rt, "a ruled map of items"),
        Of::RuledSet => refusal.meet(rt, "a ruled set of items"),
        Of::RuledIndex => refusal.meet(rt, "a ruled index of items"),
        Of::RuledCache => refusal.meet(rt, "a ruled cache of items"),
    }
}

/// Reports that an insertion was refused.
pub(crate) fn insertion<R: Print>(rt: &R, refusal: &mut Refusal, of: Of) {
    match of {
        Of::Map => refusal.meet(rt, "an insertion into a map"),
        Of::Set => refusal.meet(rt, "an insertion into a set"),
        Of::Index => refusal.meet(rt, "an insertion into an index"),
        Of::Cache => refusal.meet(rt, "a put into a cache"),
        Of::SharedMap => refusal.meet(rt, "an insertion into a shared map"),
        Of::SharedSet => refusal.meet(rt, "an insertion into a shared set"),
        Of::SharedIndex => refusal.meet(rt, "an insertion into a shared index"),
        Of::SharedCache => refusal.meet(rt, "a put into a shared cache"),
        Of::RuledMap => refusal.meet(rt, "an insertion into a ruled map"),
        Of::RuledSet => refusal.meet(rt, "an insertion into a ruled set"),
        Of::RuledIndex => refusal.meet(rt, "an insertion into a ruled index"),
        Of::RuledCache => refusal.meet(rt, "a put into a ruled cache"),
    }
}

/// Reports that a growth was refused. The pair is inserted all the same.
pub(crate) fn growth<R: Print>(rt: &R, refusal: &mut Refusal, of: Of) {
    match of {
        Of::Map => refusal.meet(rt, "a growth of a map"),
        Of::Set => refusal.meet(rt, "a growth of a set"),
        Of::Index => refusal.meet(rt, "a growth of an index"),
        Of::Cache => refusal.meet(rt, "a growth of a cache"),
        Of::SharedMap => refusal.meet(rt, "a growth of a shared map"),
        Of::SharedSet => refusal.meet(rt, "a growth of a shared set"),
        Of::SharedIndex => refusal.meet(rt, "a growth of a shared index"),
        Of::SharedCache => refusal.meet(rt, "a growth of a shared cache"),
        Of::RuledMap => refusal.meet(rt, "a growth of a ruled map"),
        Of::RuledSet => refusal.meet(rt, "a growth of a ruled set"),
        Of::RuledIndex => refusal.meet(rt, "a growth of a ruled index"),
        Of::RuledCache => refusal.meet(rt, "a growth of a ruled cache"),
    }
}

/// Reports that the growth of a preparation was refused. The insertion that follows doesn't ask for it again.
pub(crate) fn room<R: Print>(rt: &R, refusal: &mut Refusal, of: Of) {
    match of {
        Of::Map => refusal.meet(rt, "a growth in a preparation of a map"),
        Of::Set => refusal.meet(rt, "a growth in a preparation of a set"),
        Of::Index => refusal.meet(rt, "a growth in a preparation of an index"),
        Of::Cache => refusal.meet(rt, "a growth in a preparation of a cache"),
        _ => {}
    }
}

/// Reports that a shrink was refused. The pair is removed all the same.
pub(crate) fn shrink<R: Print>(rt: &R, refusal: &mut Refusal, of: Of) {
    match of {
        Of::Map => refusal.meet(rt, "a shrink of a map"),
        Of::Set => refusal.meet(rt, "a shrink of a set"),
        Of::Index => refusal.meet(rt, "a shrink of an index"),
        Of::Cache => refusal.meet(rt, "a shrink of a cache"),
        Of::SharedMap => refusal.meet(rt, "a shrink of a shared map"),
        Of::SharedSet => refusal.meet(rt, "a shrink of a shared set"),
        Of::SharedIndex => refusal.meet(rt, "a shrink of a shared index"),
        Of::SharedCache => refusal.meet(rt, "a shrink of a shared cache"),
        Of::RuledMap => refusal.meet(rt, "a shrink of a ruled map"),
        Of::RuledSet => refusal.meet(rt, "a shrink of a ruled set"),
        Of::RuledIndex => refusal.meet(rt, "a shrink of a ruled index"),
        Of::RuledCache => refusal.meet(rt, "a shrink of a ruled cache"),
    }
}

/// Reports that a walk that takes pairs was refused room in its list.
pub(crate) fn walk<R: Print>(rt: &R, refusal: &mut Refusal, of: Of) {
    match of {
        Of::Map => refusal.meet(rt, "a taking walk of a map"),
        Of::Set => refusal.meet(rt, "a taking walk of a set"),
        Of::Cache => refusal.meet(rt, "a taking walk of a cache"),
        Of::SharedMap => refusal.meet(rt, "a taking walk of a shared map"),
        Of::SharedSet => refusal.meet(rt, "a taking walk of a shared set"),
        Of::SharedCache => refusal.meet(rt, "a taking walk of a shared cache"),
        Of::RuledMap => refusal.meet(rt, "a taking walk of a ruled map"),
        Of::RuledSet => refusal.meet(rt, "a taking walk of a ruled set"),
        Of::RuledCache => refusal.meet(rt, "a taking walk of a ruled cache"),
        _ => {}
    }
}

/// Reports that the growth of a reservation was refused. The slots are reserved all the same.
pub(crate) fn reservation<R: Print>(rt: &R, refusal: &mut Refusal, of: Of) {
    match of {
        Of::Map => refusal.meet(rt, "a growth at a reservation of a map"),
        Of::Set => refusal.meet(rt, "a growth at a reservation of a set"),
        Of::Index => refusal.meet(rt, "a growth at a reservation of an index"),
        Of::SharedMap => refusal.meet(rt, "a growth at a reservation of a shared map"),
        Of::SharedSet => refusal.meet(rt, "a growth at a reservation of a shared set"),
        Of::SharedIndex => refusal.meet(rt, "a growth at a reservation of a shared index"),
        Of::RuledMap => refusal.meet(rt, "a growth at a reservation of a ruled map"),
        Of::RuledSet => refusal.meet(rt, "a growth at a reservation of a ruled set"),
        Of::RuledIndex => refusal.meet(rt, "a growth at a reservation of a ruled index"),
        _ => {}
    }
}
