//! The codes of DWARF 5, chapter 7, each once in the whole program: forms, operators and kinds of list entries with their shapes, classes
//! and names, and the codes of attributes, tags, units and columns of line tables. All other crates take them from here.
//!
//! `forms`, `operators`, `list_kinds`, `tag_names` and `attribute_names` give a table each, of which `Codes::find` answers the row of a
//! code, or that there is none; `form_shape`, `class_of`, `operator_shape` and `list_kind_shape` say the same in a step. Constants have the
//! standard's names. `names_file` and `names_list` are the attributes whose numbers are files, and location lists.
//!
//! A form is a row of the list in `form`, and rows of `specs/Forms.antt` and `specs/Classes.antt`; an operator a row of the list in
//! `operator`, and one of `specs/Operators.antt`. The laws (`table_laws`): codes ascend and differ, and the row that is found is the one of
//! the code.
//!
//! Read first: `form_rows` (`specs/Forms.antt`) and `operator_rows` (`specs/Operators.antt`), line by line against the standard; then
//! `row_of` (`specs/Rows.antt`).
#![tactic(auto)]

mod attribute;
mod class;
mod codes;
mod form;
mod laws;
mod list_kind;
mod operator;
mod row;
mod shape;
mod tag;
mod unit;

pub use attribute::DW_AT_ABSTRACT_ORIGIN;
pub use attribute::DW_AT_ALIGNMENT;
pub use attribute::DW_AT_BASE_TYPES;
pub use attribute::DW_AT_BYTE_SIZE;
pub use attribute::DW_AT_CALL_COLUMN;
pub use attribute::DW_AT_CALL_FILE;
pub use attribute::DW_AT_CALL_LINE;
pub use attribute::DW_AT_COMP_DIR;
pub use attribute::DW_AT_CONST_VALUE;
pub use attribute::DW_AT_COUNT;
pub use attribute::DW_AT_DATA_MEMBER_LOCATION;
pub use attribute::DW_AT_DECL_COLUMN;
pub use attribute::DW_AT_DECL_FILE;
pub use attribute::DW_AT_DECL_LINE;
pub use attribute::DW_AT_DECLARATION;
pub use attribute::DW_AT_ENCODING;
pub use attribute::DW_AT_EXTERNAL;
pub use attribute::DW_AT_FRAME_BASE;
pub use attribute::DW_AT_HIGH_PC;
pub use attribute::DW_AT_IMPORT;
pub use attribute::DW_AT_LANGUAGE;
pub use attribute::DW_AT_LINKAGE_NAME;
pub use attribute::DW_AT_LOCATION;
pub use attribute::DW_AT_LOCLISTS_BASE;
pub use attribute::DW_AT_LOW_PC;
pub use attribute::DW_AT_NAME;
pub use attribute::DW_AT_PRODUCER;
pub use attribute::DW_AT_PROTOTYPED;
pub use attribute::DW_AT_RANGES;
pub use attribute::DW_AT_RETURN_ADDR;
pub use attribute::DW_AT_SEGMENT;
pub use attribute::DW_AT_SIBLING;
pub use attribute::DW_AT_SPECIFICATION;
pub use attribute::DW_AT_STATIC_LINK;
pub use attribute::DW_AT_STMT_LIST;
pub use attribute::DW_AT_STR_OFFSETS_BASE;
pub use attribute::DW_AT_STRING_LENGTH;
pub use attribute::DW_AT_TYPE;
pub use attribute::DW_AT_UPPER_BOUND;
pub use attribute::DW_AT_USE_LOCATION;
pub use attribute::DW_AT_VTABLE_ELEM_LOCATION;
pub use attribute::attribute_names;
pub use attribute::names_file;
pub use attribute::names_list;
pub use class::Class;
pub use codes::Codes;
pub use form::DW_FORM_ADDR;
pub use form::DW_FORM_ADDRX;
pub use form::DW_FORM_ADDRX1;
pub use form::DW_FORM_ADDRX2;
pub use form::DW_FORM_ADDRX3;
pub use form::DW_FORM_ADDRX4;
pub use form::DW_FORM_BLOCK;
pub use form::DW_FORM_BLOCK1;
pub use form::DW_FORM_BLOCK2;
pub use form::DW_FORM_BLOCK4;
pub use form::DW_FORM_DATA1;
pub use form::DW_FORM_DATA2;
pub use form::DW_FORM_DATA4;
pub use form::DW_FORM_DATA8;
pub use form::DW_FORM_DATA16;
pub use form::DW_FORM_EXPRLOC;
pub use form::DW_FORM_FLAG;
pub use form::DW_FORM_FLAG_PRESENT;
pub use form::DW_FORM_IMPLICIT_CONST;
pub use form::DW_FORM_INDIRECT;
pub use form::DW_FORM_LINE_STRP;
pub use form::DW_FORM_LOCLISTX;
pub use form::DW_FORM_REF_ADDR;
pub use form::DW_FORM_REF_SIG8;
pub use form::DW_FORM_REF_SUP4;
pub use form::DW_FORM_REF_SUP8;
pub use form::DW_FORM_REF_UDATA;
pub use form::DW_FORM_REF1;
pub use form::DW_FORM_REF2;
pub use form::DW_FORM_REF4;
pub use form::DW_FORM_REF8;
pub use form::DW_FORM_RNGLISTX;
pub use form::DW_FORM_SDATA;
pub use form::DW_FORM_SEC_OFFSET;
pub use form::DW_FORM_STRING;
pub use form::DW_FORM_STRP;
pub use form::DW_FORM_STRP_SUP;
pub use form::DW_FORM_STRX;
pub use form::DW_FORM_STRX1;
pub use form::DW_FORM_STRX2;
pub use form::DW_FORM_STRX3;
pub use form::DW_FORM_STRX4;
pub use form::DW_FORM_UDATA;
pub use form::class_of;
pub use form::form_shape;
pub use form::forms;
pub use laws::name_laws;
pub use laws::table_laws;
pub use list_kind::DW_LLE_BASE_ADDRESS;
pub use list_kind::DW_LLE_BASE_ADDRESSX;
pub use list_kind::DW_LLE_DEFAULT_LOCATION;
pub use list_kind::DW_LLE_END_OF_LIST;
pub use list_kind::DW_LLE_GNU_VIEW_PAIR;
pub use list_kind::DW_LLE_OFFSET_PAIR;
pub use list_kind::DW_LLE_START_END;
pub use list_kind::DW_LLE_START_LENGTH;
pub use list_kind::DW_LLE_STARTX_ENDX;
pub use list_kind::DW_LLE_STARTX_LENGTH;
pub use list_kind::list_kind_shape;
pub use list_kind::list_kinds;
pub use operator::operator_shape;
pub use operator::operators;
pub use row::Row;
pub use shape::Shape;
pub use tag::DW_TAG_ARRAY_TYPE;
pub use tag::DW_TAG_BASE_TYPE;
pub use tag::DW_TAG_CLASS_TYPE;
pub use tag::DW_TAG_COMPILE_UNIT;
pub use tag::DW_TAG_CONST_TYPE;
pub use tag::DW_TAG_CONSTANT;
pub use tag::DW_TAG_ENUMERATION_TYPE;
pub use tag::DW_TAG_ENUMERATOR;
pub use tag::DW_TAG_FORMAL_PARAMETER;
pub use tag::DW_TAG_IMPORTED_UNIT;
pub use tag::DW_TAG_INLINED_SUBROUTINE;
pub use tag::DW_TAG_LEXICAL_BLOCK;
pub use tag::DW_TAG_MEMBER;
pub use tag::DW_TAG_NAMESPACE;
pub use tag::DW_TAG_PARTIAL_UNIT;
pub use tag::DW_TAG_POINTER_TYPE;
pub use tag::DW_TAG_STRUCTURE_TYPE;
pub use tag::DW_TAG_SUBPROGRAM;
pub use tag::DW_TAG_SUBRANGE_TYPE;
pub use tag::DW_TAG_SUBROUTINE_TYPE;
pub use tag::DW_TAG_TYPE_UNIT;
pub use tag::DW_TAG_TYPEDEF;
pub use tag::DW_TAG_UNION_TYPE;
pub use tag::DW_TAG_UNSPECIFIED_TYPE;
pub use tag::DW_TAG_VARIABLE;
pub use tag::DW_TAG_VOLATILE_TYPE;
pub use tag::tag_names;
pub use unit::DW_LNCT_DIRECTORY_INDEX;
pub use unit::DW_LNCT_PATH;
pub use unit::DW_UT_COMPILE;
pub use unit::DW_UT_PARTIAL;
pub use unit::DW_UT_TYPE;
