//! The base station for hosts that are written in C, or in what calls C. `share/c/dmrgate.h` declares what is exported here.
//!
//! A host keeps a `StationHandle`, which is one pointer, and passes it to each call. A pointer of null is no station. Each call
//! takes the station out of the handle, works on it and puts it back (`specs/Handle.antt`). Only `none`, `of_parts` and
//! `into_parts` of the handle make or read that pointer. `Parts` takes a box apart for them, and puts it together again. These
//! five functions are proved by hand. What a host passes stands for frames (`specs/Slots.antt`), is tested, and is answered by a
//! status (`specs/Status.antt`). Contracts say of each call what a `dmr_station::Station` says of it (`specs/Calls.antt`).
#![tactic(auto)]

mod calls;
mod handle;
mod parts;
mod slots;
mod values;
